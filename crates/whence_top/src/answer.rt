//! What is told of the events of a job's run.
ghost use Rattle.std.specs.Prelude.{◌<◌, ◌^◌, length, IfOk};
ghost use Rattle.guest_asm.specs.Jobs.{HasFault, IfFault};
ghost use Rattle.whence_top.specs.Answers.{IsAnswer};

use guest_asm::{JobRefused, read_lined_job};
use std::alloc::Global;
use whence_text::answer_job;
use whence_trail::Pair;

/// The text that tells of these events of the run of the job that the bytes spell.
pub fn answer(alloc: Global, bytes: &[u8], pairs: &[Pair]) -> Result<Vec<u8>, JobRefused>
    requires { length bytes.now < 2 ^ 31 }
    ensures ok { IfOk result (λ text. IsAnswer pairs.now bytes.now text.items) }
    ensures fault { IfFault result (HasFault bytes.now) }
{
    match read_lined_job(alloc, bytes) {
        Ok(lined) => Ok(answer_job(alloc, &lined, pairs)?),
        Err(refused) => Err(refused),
    }
}
