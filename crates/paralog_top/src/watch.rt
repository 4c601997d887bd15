//! `watch L n`: the workers of a log beside each other.
ghost use Rattle.std.specs.Prelude.{◌≡◌, ◌<◌, [], length, IfOk, IfErr};
ghost use Rattle.pl_event.specs.Runs.{IsRunLog};
ghost use Rattle.log_watch.specs.Watched.{IsWatched};
ghost use Rattle.paralog_top.specs.declared.input.Input.TheVariants as kinds;
ghost use Rattle.paralog_top.specs.Asked.{tells};
ghost use Rattle.paralog_top.specs.Refusals.{IsRefusal, Reads};
ghost use Rattle.paralog_top.specs.Results.{IsResult, rules_of};
ghost use Rattle.paralog_top.specs.Watches.{IsWatch};

use crate::answer::{Answer, Verdict};
use crate::checked::{Checked, read_checked};
use crate::refusal::Refusal;
use crate::result::verdict_of;
use addrcheck::AddrCheck;
use lifeguard::{Lifeguard, Name};
use log_check::OrderedLog;
use log_watch::{Watched, watch_log, watch_on_threads};
use memcheck::MemCheck;
use pl_base::{Gate, NoMemory, Source};
use pl_event::{Log, Point};
use std::alloc::Global;
use std::sync::Wait;
use std::thread::Threads;
use taintcheck::TaintCheck;
use watch_text::{Found, text_of};

/// What the workers of the log that the source has find, on this thread.
pub fn watch<S: Source>(alloc: Global, guard: Name, source: &mut S) -> Result<Answer, Refusal>
    ensures ok { let input = tells S.left S.faults source.old source.new in
        IfOk result (λ answer. Reads kinds.Log input (λ bytes. IsWatch guard bytes answer.text.items answer.verdict)) }
    ensures err { let input = tells S.left S.faults source.old source.new in
        IfErr result (IsRefusal kinds.Log input) }
{
    match read_checked(alloc, source) {
        Ok(Checked::Ordered(log)) => match found_on(alloc, guard, &log) {
            Ok(answer) => Ok(answer),
            Err(NoMemory) => Err(Refusal::NoMemory),
        },
        Ok(Checked::Unordered { earlier, later }) => Ok(unordered(alloc, earlier, later)),
        Err(refusal) => Err(refusal),
    }
}

/// The same, on so many threads. It may wait.
pub fn watch_apart<R: Threads + Wait + Sync, S: Source, G: Gate + Sync>(
    rt: &R,
    alloc: Global,
    guard: Name,
    threads: u8,
    gate: &G,
    source: &mut S,
) -> Result<Answer, Refusal>
    ensures ok { let input = tells S.left S.faults source.old source.new in
        IfOk result (λ answer. Reads kinds.Log input (λ bytes. IsWatch guard bytes answer.text.items answer.verdict)) }
    ensures err { let input = tells S.left S.faults source.old source.new in
        IfErr result (IsRefusal kinds.Log input) }
{
    match read_checked(alloc, source) {
        Ok(Checked::Ordered(log)) => match found_apart(rt, alloc, guard, threads, gate, &log) {
            Ok(answer) => Ok(answer),
            Err(NoMemory) => Err(Refusal::NoMemory),
        },
        Ok(Checked::Unordered { earlier, later }) => Ok(unordered(alloc, earlier, later)),
        Err(refusal) => Err(refusal),
    }
}

/// The answer that names two records and has no text.
pub(crate) fn unordered(alloc: Global, earlier: Point, later: Point) -> Answer
    ensures text { result.text.items ≡ [] }
    ensures verdict { result.verdict ≡ Verdict.Unordered earlier later }
{
    Answer {
        text: Vec::new(alloc),
        verdict: Verdict::Unordered { earlier, later },
    }
}

/// What the workers of a log find under the named lifeguard, as an answer.
fn found_on(alloc: Global, guard: Name, log: &OrderedLog) -> Result<Answer, NoMemory>
    requires few { length log.now.log.lines < 4294967295 }
    requires log { IsRunLog log.now.log }
    ensures { IfOk result (λ answer. IsResult (rules_of guard) log.now.log answer.text.items answer.verdict) }
{
    match guard {
        Name::Addr => found_under(alloc, AddrCheck, log),
        Name::Taint => found_under(alloc, TaintCheck, log),
        Name::Mem => found_under(alloc, MemCheck, log),
    }
}

fn found_under<L: Lifeguard>(alloc: Global, guard: L, log: &OrderedLog) -> Result<Answer, NoMemory>
    requires few { length log.now.log.lines < 4294967295 }
    requires log { IsRunLog log.now.log }
    ensures { IfOk result (λ answer. IsResult (L.rules guard) log.now.log answer.text.items answer.verdict) }
{
    let watched = watch_log(alloc, guard, log)?;
    found(alloc, guard, log.log(), &watched)
}

/// The same, on so many threads.
fn found_apart<R: Threads + Wait + Sync, G: Gate + Sync>(
    rt: &R,
    alloc: Global,
    guard: Name,
    threads: u8,
    gate: &G,
    log: &OrderedLog,
) -> Result<Answer, NoMemory>
    requires few { length log.now.log.lines < 4294967295 }
    requires log { IsRunLog log.now.log }
    ensures { IfOk result (λ answer. IsResult (rules_of guard) log.now.log answer.text.items answer.verdict) }
{
    match guard {
        Name::Addr => found_by_threads(rt, alloc, AddrCheck, threads, gate, log),
        Name::Taint => found_by_threads(rt, alloc, TaintCheck, threads, gate, log),
        Name::Mem => found_by_threads(rt, alloc, MemCheck, threads, gate, log),
    }
}

fn found_by_threads<R: Threads + Wait + Sync, L: Lifeguard + Send + Sync, G: Gate + Sync>(
    rt: &R,
    alloc: Global,
    guard: L,
    threads: u8,
    gate: &G,
    log: &OrderedLog,
) -> Result<Answer, NoMemory>
    requires few { length log.now.log.lines < 4294967295 }
    requires log { IsRunLog log.now.log }
    ensures { IfOk result (λ answer. IsResult (L.rules guard) log.now.log answer.text.items answer.verdict) }
{
    let watched = watch_on_threads(rt, alloc, guard, log, threads, gate)?;
    found(alloc, guard, log.log(), &watched)
}

/// What was found on a log, as an answer.
fn found<L: Lifeguard>(
    alloc: Global,
    guard: L,
    log: &Log,
    watched: &Watched,
) -> Result<Answer, NoMemory>
    requires log { IsRunLog log.now }
    requires watched { IsWatched (L.rules guard) log.now watched.now }
    ensures { IfOk result (λ answer. IsResult (L.rules guard) log.now answer.text.items answer.verdict) }
{
    let Found { text, is_clean } = text_of(alloc, guard, log.harts, watched)?;
    let verdict = verdict_of(is_clean);
    Ok(Answer { text, verdict })
}
