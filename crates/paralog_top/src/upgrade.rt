//! `upgrade`: a log as one of version 2.
ghost use Rattle.std.specs.Prelude.{◌≡◌, IfOk, IfErr};
ghost use Rattle.paralog_top.specs.declared.input.Input.TheVariants as kinds;
ghost use Rattle.paralog_top.specs.Asked.{tells};
ghost use Rattle.paralog_top.specs.Recordings.{IsUpgradeTold};
ghost use Rattle.paralog_top.specs.Refusals.{IsRefusal, Reads};

use crate::answer::{Answer, Verdict};
use crate::refusal::Refusal;
use pl_base::Source;
use pl_base::layout::MAX_LOG_BYTES;
use run_record::upgrade_source;
use std::alloc::Global;

/// The log that the source has, recorded anew in blocks of 4 bytes.
pub fn upgrade<S: Source>(alloc: Global, source: &mut S) -> Result<Answer, Refusal>
    ensures ok { let input = tells S.left S.faults source.old source.new in
        IfOk result (λ answer. Reads kinds.Log input
        (λ bytes. IsUpgradeTold bytes answer.text.items × (answer.verdict ≡ Verdict.Clean))) }
    ensures err { let input = tells S.left S.faults source.old source.new in
        IfErr result (IsRefusal kinds.Log input) }
{
    match upgrade_source(alloc, source, MAX_LOG_BYTES) {
        Ok(text) => Ok(Answer {
            text,
            verdict: Verdict::Clean,
        }),
        Err(end) => Err(Refusal::of_log(end)),
    }
}
