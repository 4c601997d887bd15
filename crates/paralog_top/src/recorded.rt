//! `record`: the log of the run of a job.
ghost use Rattle.std.specs.Prelude.{◌≡◌, ◌<◌, ◌^◌, length, IfOk, IfErr};
ghost use Rattle.guest_asm.specs.Jobs.{HasFault, IfFault};
ghost use Rattle.paralog_top.specs.declared.input.Input.TheVariants as kinds;
ghost use Rattle.paralog_top.specs.Asked.{tells};
ghost use Rattle.paralog_top.specs.Recordings.{IsRecordTold};
ghost use Rattle.paralog_top.specs.Refusals.{IsRefusal, Reads};

use crate::answer::{Answer, Verdict};
use crate::input::read_job_bytes;
use crate::refusal::Refusal;
use guest_asm::{JobRefused, read_job};
use pl_base::Source;
use run_record::record_job;
use std::alloc::Global;

/// The log of the run of the job that the source has.
pub fn recorded<S: Source>(alloc: Global, source: &mut S) -> Result<Answer, Refusal>
    ensures ok { let input = tells S.left S.faults source.old source.new in
        IfOk result (λ answer. Reads kinds.Job input
        (λ bytes. IsRecordTold bytes answer.text.items × (answer.verdict ≡ Verdict.Clean))) }
    ensures err { let input = tells S.left S.faults source.old source.new in
        IfErr result (IsRefusal kinds.Job input) }
{
    let bytes = match read_job_bytes(alloc, source) {
        Ok(bytes) => bytes,
        Err(refusal) => return Err(refusal),
    };
    match record_bytes(alloc, &bytes) {
        Ok(text) => Ok(Answer {
            text,
            verdict: Verdict::Clean,
        }),
        Err(refused) => Err(Refusal::of_job(refused)),
    }
}

/// The log of the run of the job that the bytes spell.
fn record_bytes(alloc: Global, bytes: &[u8]) -> Result<Vec<u8>, JobRefused>
    requires { length bytes.now < 2 ^ 31 }
    ensures ok { IfOk result (λ text. IsRecordTold bytes.now text.items) }
    ensures fault { IfFault result (HasFault bytes.now) }
{
    match read_job(alloc, bytes) {
        Ok(job) => Ok(record_job(alloc, &job)?),
        Err(refused) => Err(refused),
    }
}
