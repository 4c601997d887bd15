//! `check`: whether each two conflicting records of a log are ordered.
ghost use Rattle.std.specs.Prelude.{◌≡◌, IfOk, IfErr};
ghost use Rattle.paralog_top.specs.declared.input.Input.TheVariants as kinds;
ghost use Rattle.paralog_top.specs.Asked.{tells};
ghost use Rattle.paralog_top.specs.Checks.{IsChecked, order_line, verdict_on};
ghost use Rattle.paralog_top.specs.Refusals.{IsRefusal, Reads};

use crate::answer::{Answer, Verdict};
use crate::refusal::Refusal;
use log_check::UnorderedPair;
use pl_base::layout::MAX_LOG_BYTES;
use pl_base::{NoMemory, Source};
use pl_event::Point;
use source_check::check_source;
use std::alloc::{AllocError, Global};

/// The order of the log that the source has: a line that says that it is ordered, or names the first pair that is not.
pub fn check<S: Source>(alloc: Global, source: &mut S) -> Result<Answer, Refusal>
    ensures ok { let input = tells S.left S.faults source.old source.new in
        IfOk result (λ answer. Reads kinds.Log input (λ bytes. IsChecked bytes answer.text.items answer.verdict)) }
    ensures err { let input = tells S.left S.faults source.old source.new in
        IfErr result (IsRefusal kinds.Log input) }
{
    match check_source(alloc, source, MAX_LOG_BYTES) {
        Ok(found) => match order_told(alloc, found) {
            Ok(answer) => Ok(answer),
            Err(NoMemory) => Err(Refusal::NoMemory),
        },
        Err(end) => Err(Refusal::of_log(end)),
    }
}

/// What was found, as an answer.
fn order_told(alloc: Global, found: Option<UnorderedPair>) -> Result<Answer, NoMemory>
    ensures verdict { IfOk result (λ answer. answer.verdict ≡ verdict_on found) }
    ensures text { IfOk result (λ answer. answer.text.items ≡ order_line answer.verdict) }
{
    match found {
        None => Ok(Answer {
            text: b"ordered\n".to_vec(alloc)?,
            verdict: Verdict::Clean,
        }),
        Some(UnorderedPair { earlier, later }) => Ok(Answer {
            text: unordered_line(alloc, earlier, later)?,
            verdict: Verdict::Unordered { earlier, later },
        }),
    }
}

fn unordered_line(alloc: Global, earlier: Point, later: Point) -> Result<Vec<u8>, AllocError>
    ensures { IfOk result (λ line. line.items ≡ order_line (Verdict.Unordered earlier later)) }
{
    let (u, n) = (earlier.hart, earlier.number);
    let (v, m) = (later.hart, later.number);
    let mut line = String::new(alloc);
    write!(line, "unordered {u}:{n} {v}:{m}\n")?;
    Ok(line.into_bytes())
}
