//! `replay L`: the plain rules over all events of a log.
ghost use Rattle.std.specs.Prelude.{◌≡◌, ◌≤◌, ◌+◌, List, ℕ, All, IfOk, IfErr};
ghost use Rattle.std.specs.declared.option.Option.{Option};
ghost use Rattle.pl_base.specs.declared.layout.TheConstants.{MAX_HARTS, MAX_LOG_BYTES, PAGE_COUNT};
ghost use Rattle.log_text.specs.Streaming.{IsEnd, IsStreamed, KeepsFaults, WasRead, begun_log};
ghost use Rattle.paralog_top.specs.declared.input.Input.TheVariants as kinds;
ghost use Rattle.paralog_top.specs.Asked.{tells};
ghost use Rattle.paralog_top.specs.Refusals.{IsRefusal, Reads};
ghost use Rattle.paralog_top.specs.Results.{IsReplay, IsReplayUnder};

use crate::answer::Answer;
use crate::play::play_rows;
use crate::refusal::Refusal;
use crate::result::result_of;
use addrcheck::AddrCheck;
use lifeguard::{Lifeguard, Name, PlainMonitor};
use log_text::{LogEnd, LogStream, Opening};
use memcheck::MemCheck;
use pl_base::Source;
use pl_base::layout::MAX_LOG_BYTES;
use std::alloc::Global;
use taintcheck::TaintCheck;

/// The replay of the log that the source has, under the named lifeguard.
pub fn replay<S: Source>(alloc: Global, guard: Name, source: &mut S) -> Result<Answer, Refusal>
    ensures ok { let input = tells S.left S.faults source.old source.new in
        IfOk result (λ answer. Reads kinds.Log input (λ bytes. IsReplay guard bytes answer.text.items answer.verdict)) }
    ensures err { let input = tells S.left S.faults source.old source.new in
        IfErr result (IsRefusal kinds.Log input) }
{
    match replay_named(alloc, guard, source) {
        Ok(answer) => Ok(answer),
        Err(end) => Err(Refusal::of_log(end)),
    }
}

fn replay_named<S: Source>(alloc: Global, guard: Name, source: &mut S) -> Result<Answer, LogEnd>
    ensures ok { IfOk result (λ answer. WasRead MAX_LOG_BYTES (S.left source.old) (S.left source.new)
        (λ bytes. IsReplay guard bytes answer.text.items answer.verdict)) }
    ensures end { IfErr result (IsEnd MAX_LOG_BYTES (S.left source.old) (S.left source.new)) }
    ensures faults { KeepsFaults (S.faults source.old) (S.faults source.new) result }
{
    match guard {
        Name::Addr => replay_under(alloc, AddrCheck, source),
        Name::Taint => replay_under(alloc, TaintCheck, source),
        Name::Mem => replay_under(alloc, MemCheck, source),
    }
}

fn replay_under<L: Lifeguard, S: Source>(
    alloc: Global,
    guard: L,
    source: &mut S,
) -> Result<Answer, LogEnd>
    ensures ok { IfOk result (λ answer. WasRead MAX_LOG_BYTES (S.left source.old) (S.left source.new)
        (λ bytes. IsReplayUnder (L.rules guard) bytes answer.text.items answer.verdict)) }
    ensures end { IfErr result (IsEnd MAX_LOG_BYTES (S.left source.old) (S.left source.new)) }
    ensures faults { KeepsFaults (S.faults source.old) (S.faults source.new) result }
{
    match LogStream::open(alloc, source, MAX_LOG_BYTES) {
        Ok(opening) => replay_opened(alloc, guard, opening, source),
        Err(end) => Err(end),
    }
}

/// The replay of a log whose header and pages were read.
fn replay_opened<L: Lifeguard, S: Source>(
    alloc: Global,
    guard: L,
    opening: Opening,
    source: &mut S,
) -> Result<Answer, LogEnd>
    requires few { opening.harts ≤ MAX_HARTS }
    requires pages { All (λ run. run.first + run.count ≤ PAGE_COUNT) opening.pages }
    requires read { (limit : ℕ) × (began : Option (List ℕ))
        × IsStreamed limit began (S.left source.old) opening.stream (begun_log opening) }
    ensures ok { (limit : ℕ) (began : Option (List ℕ))
        → IsStreamed limit began (S.left source.old) opening.stream (begun_log opening)
        → IfOk result (λ answer. WasRead limit began (S.left source.new)
        (λ bytes. IsReplayUnder (L.rules guard) bytes answer.text.items answer.verdict)) }
    ensures end { (limit : ℕ) (began : Option (List ℕ))
        → IsStreamed limit began (S.left source.old) opening.stream (begun_log opening)
        → IfErr result (IsEnd limit began (S.left source.new)) }
    ensures faults { KeepsFaults (S.faults source.old) (S.faults source.new) result }
{
    let Opening {
        harts,
        block: _,
        pages,
        mut stream,
    } = opening;
    let mut monitor = PlainMonitor::new(alloc, guard, harts, pages.as_slice())?;
    match play_rows(alloc, &mut monitor, &mut stream, source) {
        Ok(()) => Ok(result_of(alloc, guard, &monitor)?),
        Err(end) => Err(end),
    }
}
