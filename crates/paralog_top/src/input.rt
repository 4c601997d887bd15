//! What a command reads.
ghost use Rattle.std.specs.Prelude.{◌≡◌, ◌≤◌, vec_len, IfOk, IfErr};
ghost use Rattle.pl_base.specs.declared.layout.TheConstants.{MAX_JOB_BYTES};
ghost use Rattle.paralog_top.specs.declared.input.Input.TheVariants as kinds;
ghost use Rattle.paralog_top.specs.Asked.{tells};
ghost use Rattle.paralog_top.specs.Refusals.{IsRefusal, Reads};

use crate::refusal::Refusal;
use pl_base::layout::MAX_JOB_BYTES;
use pl_base::{Source, read_all};
use std::alloc::Global;

/// What a command reads.
#[derive(Clone, Copy, Debug, PartialEq, Eq)]
pub enum Input {
    /// A log.
    Log,
    /// A job.
    Job,
    /// Nothing: the source is not touched.
    Nothing,
}

/// All bytes that the source has, at most as many as a job may have.
pub fn read_job_bytes<S: Source>(alloc: Global, source: &mut S) -> Result<Vec<u8>, Refusal>
    ensures ok { let input = tells S.left S.faults source.old source.new in
        IfOk result (λ bytes. Reads kinds.Job input (λ read. read ≡ bytes.items)) }
    ensures few { IfOk result (λ bytes. vec_len bytes ≤ MAX_JOB_BYTES) }
    ensures err { let input = tells S.left S.faults source.old source.new in
        IfErr result (IsRefusal kinds.Job input) }
{
    match read_all(alloc, source, MAX_JOB_BYTES) {
        Ok(bytes) => Ok(bytes),
        Err(end) => Err(Refusal::of_end(end)),
    }
}
