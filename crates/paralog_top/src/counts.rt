//! `counts L`: the checks that the workers of a log make.
ghost use Rattle.std.specs.Prelude.{◌≡◌, ◌<◌, length, IfOk, IfErr};
ghost use Rattle.pl_event.specs.Runs.{IsRunLog};
ghost use Rattle.watch_text.specs.CountsText.{log_counts};
ghost use Rattle.paralog_top.specs.declared.input.Input.TheVariants as kinds;
ghost use Rattle.paralog_top.specs.Asked.{tells};
ghost use Rattle.paralog_top.specs.Refusals.{IsRefusal, Reads};
ghost use Rattle.paralog_top.specs.Results.{rules_of};
ghost use Rattle.paralog_top.specs.Watches.{IsCounts};

use crate::answer::{Answer, Verdict};
use crate::checked::{Checked, read_checked};
use crate::refusal::Refusal;
use crate::watch::unordered;
use addrcheck::AddrCheck;
use lifeguard::{Lifeguard, Name};
use log_check::OrderedLog;
use log_watch::watch_log;
use memcheck::MemCheck;
use pl_base::{NoMemory, Source};
use std::alloc::Global;
use taintcheck::TaintCheck;
use watch_text::counts_text;

/// How many checks the records of each hart have in the log that the source has, and how many of them miss in the
/// worker's filter.
pub fn counts<S: Source>(alloc: Global, guard: Name, source: &mut S) -> Result<Answer, Refusal>
    ensures ok { let input = tells S.left S.faults source.old source.new in
        IfOk result (λ answer. Reads kinds.Log input (λ bytes. IsCounts guard bytes answer.text.items answer.verdict)) }
    ensures err { let input = tells S.left S.faults source.old source.new in
        IfErr result (IsRefusal kinds.Log input) }
{
    match read_checked(alloc, source) {
        Ok(Checked::Ordered(log)) => match counted(alloc, guard, &log) {
            Ok(text) => Ok(Answer {
                text,
                verdict: Verdict::Clean,
            }),
            Err(NoMemory) => Err(Refusal::NoMemory),
        },
        Ok(Checked::Unordered { earlier, later }) => Ok(unordered(alloc, earlier, later)),
        Err(refusal) => Err(refusal),
    }
}

/// The counts of a log under the named lifeguard.
fn counted(alloc: Global, guard: Name, log: &OrderedLog) -> Result<Vec<u8>, NoMemory>
    requires few { length log.now.log.lines < 4294967295 }
    requires log { IsRunLog log.now.log }
    ensures { IfOk result (λ text. text.items ≡ log_counts (rules_of guard) log.now.log) }
{
    match guard {
        Name::Addr => counted_under(alloc, AddrCheck, log),
        Name::Taint => counted_under(alloc, TaintCheck, log),
        Name::Mem => counted_under(alloc, MemCheck, log),
    }
}

fn counted_under<L: Lifeguard>(
    alloc: Global,
    guard: L,
    log: &OrderedLog,
) -> Result<Vec<u8>, NoMemory>
    requires few { length log.now.log.lines < 4294967295 }
    requires log { IsRunLog log.now.log }
    ensures { IfOk result (λ text. text.items ≡ log_counts (L.rules guard) log.now.log) }
{
    let watched = watch_log(alloc, guard, log)?;
    counts_text(alloc, guard, log.log(), &watched)
}
