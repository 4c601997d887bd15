//! `probe L NAME..`: a replay, and a line of each named probe.
ghost use Rattle.std.specs.Prelude.{◌≡◌, ◌≤◌, ◌+◌, ◌++◌, ◌∷◌, [], List, ℕ, All, MatchOption, IfOk, IfErr, OnOk};
ghost use Rattle.std.specs.Prelude.{map, string_bytes};
ghost use Rattle.std.specs.declared.option.Option.{Option};
ghost use Rattle.std.specs.List.{flat_map};
ghost use Rattle.pl_base.specs.declared.layout.TheConstants.{MAX_HARTS, MAX_LOG_BYTES, PAGE_COUNT};
ghost use Rattle.lifeguard.specs.declared.guard.Name.{Name};
ghost use Rattle.lifeguard.specs.Words.{guard_word};
ghost use Rattle.log_text.specs.Streaming.{IsEnd, IsStreamed, KeepsFaults, WasRead, begun_log};
ghost use Rattle.replay_probes.specs.Meaning.{Meaning};
ghost use Rattle.paralog_top.specs.declared.input.Input.TheVariants as kinds;
ghost use Rattle.paralog_top.specs.Asked.{tells};
ghost use Rattle.paralog_top.specs.ProbeNames.{AreChosen, names_at};
ghost use Rattle.paralog_top.specs.Refusals.{IsRefusal, Reads};
ghost use Rattle.paralog_top.specs.Results.{IsProbed, IsProbedUnder, line_at};
ghost use Rattle.paralog_top.specs.inner.Playing.{HasWatched, IsPlayed};

use crate::answer::Answer;
use crate::chosen::Chosen;
use crate::guards::guard_of;
use crate::play::play_rows;
use crate::refusal::Refusal;
use crate::result::result_of;
use addrcheck::AddrCheck;
use lifeguard::{Lifeguard, Name};
use log_text::{LogEnd, LogStream, Opening};
use memcheck::MemCheck;
use pl_base::layout::MAX_LOG_BYTES;
use pl_base::{NoMemory, Source};
use replay_probes::{Probe, Replayer, in_boxes};
use std::alloc::{AllocError, Global};
use taintcheck::TaintCheck;

/// The lifeguard and the probes that the words after `probe` name.
pub fn parse_probe(operands: &[String], probes: &[Box<dyn Probe>]) -> Option<(Name, Chosen)>
    ensures { let meanings = map (λ p. meaning p) probes.now in
        let words = map string_bytes operands.now in
        MatchOption result ((guard : Name) (places : List ℕ) → AreChosen meanings places
        → words ≡ guard_word guard ∷ names_at meanings places → ⊥)
        (λ r. AreChosen meanings r.1 × (words ≡ guard_word r.0 ∷ names_at meanings r.1)) }
{
    match operands {
        [guard, names @ ..] => {
            let guard = guard_of(guard.as_str())?;
            let chosen = Chosen::parse(names, probes)?;
            Some((guard, chosen))
        }
        [] => None,
    }
}

/// The replay of the log that the source has, under the named lifeguard, and after it the lines of the chosen probes.
pub fn probe<S: Source>(
    alloc: Global,
    guard: Name,
    chosen: &Chosen,
    probes: Vec<Box<dyn Probe>>,
    source: &mut S,
) -> Result<Answer, Refusal>
    requires fresh { All (λ p. has_seen p []) probes.items }
    ensures ok { let input = tells S.left S.faults source.old source.new in
        let meanings = map (λ p. meaning p) probes.items in IfOk result (λ answer. Reads kinds.Log input
        (λ bytes. IsProbed meanings guard chosen.now bytes answer.text.items answer.verdict)) }
    ensures err { let input = tells S.left S.faults source.old source.new in
        IfErr result (IsRefusal kinds.Log input) }
{
    match probe_boxed(alloc, guard, chosen.places(), probes, source) {
        Ok(answer) => Ok(answer),
        Err(end) => Err(Refusal::of_log(end)),
    }
}

fn probe_boxed<S: Source>(
    alloc: Global,
    guard: Name,
    places: &[usize],
    probes: Vec<Box<dyn Probe>>,
    source: &mut S,
) -> Result<Answer, LogEnd>
    requires fresh { All (λ p. has_seen p []) probes.items }
    ensures ok { let meanings = map (λ p. meaning p) probes.items in
        IfOk result (λ answer. WasRead MAX_LOG_BYTES (S.left source.old) (S.left source.new)
        (λ bytes. IsProbed meanings guard places.now bytes answer.text.items answer.verdict)) }
    ensures end { IfErr result (IsEnd MAX_LOG_BYTES (S.left source.old) (S.left source.new)) }
    ensures faults { KeepsFaults (S.faults source.old) (S.faults source.new) result }
{
    let boxes = in_boxes(alloc, probes)?;
    probe_named(alloc, guard, places, boxes, source)
}

fn probe_named<B: Probe, S: Source>(
    alloc: Global,
    guard: Name,
    places: &[usize],
    probes: Vec<B>,
    source: &mut S,
) -> Result<Answer, LogEnd>
    requires fresh { All (λ probe. B.has_seen probe []) probes.items }
    ensures ok { let meanings = map B.meaning probes.items in
        IfOk result (λ answer. WasRead MAX_LOG_BYTES (S.left source.old) (S.left source.new)
        (λ bytes. IsProbed meanings guard places.now bytes answer.text.items answer.verdict)) }
    ensures end { IfErr result (IsEnd MAX_LOG_BYTES (S.left source.old) (S.left source.new)) }
    ensures faults { KeepsFaults (S.faults source.old) (S.faults source.new) result }
{
    match guard {
        Name::Addr => probe_under(alloc, AddrCheck, places, probes, source),
        Name::Taint => probe_under(alloc, TaintCheck, places, probes, source),
        Name::Mem => probe_under(alloc, MemCheck, places, probes, source),
    }
}

fn probe_under<L: Lifeguard, B: Probe, S: Source>(
    alloc: Global,
    guard: L,
    places: &[usize],
    probes: Vec<B>,
    source: &mut S,
) -> Result<Answer, LogEnd>
    requires fresh { All (λ probe. B.has_seen probe []) probes.items }
    ensures ok { let meanings = map B.meaning probes.items in
        IfOk result (λ answer. WasRead MAX_LOG_BYTES (S.left source.old) (S.left source.new)
        (λ bytes. IsProbedUnder (L.rules guard) meanings places.now bytes answer.text.items answer.verdict)) }
    ensures end { IfErr result (IsEnd MAX_LOG_BYTES (S.left source.old) (S.left source.new)) }
    ensures faults { KeepsFaults (S.faults source.old) (S.faults source.new) result }
{
    match LogStream::open(alloc, source, MAX_LOG_BYTES) {
        Ok(opening) => probe_opened(alloc, guard, places, probes, opening, source),
        Err(end) => Err(end),
    }
}

/// The same of a log whose header and pages were read.
fn probe_opened<L: Lifeguard, B: Probe, S: Source>(
    alloc: Global,
    guard: L,
    places: &[usize],
    probes: Vec<B>,
    opening: Opening,
    source: &mut S,
) -> Result<Answer, LogEnd>
    requires few { opening.harts ≤ MAX_HARTS }
    requires pages { All (λ run. run.first + run.count ≤ PAGE_COUNT) opening.pages }
    requires fresh { All (λ probe. B.has_seen probe []) probes.items }
    requires read { (limit : ℕ) × (began : Option (List ℕ))
        × IsStreamed limit began (S.left source.old) opening.stream (begun_log opening) }
    ensures ok { let meanings = map B.meaning probes.items in (limit : ℕ) (began : Option (List ℕ))
        → IsStreamed limit began (S.left source.old) opening.stream (begun_log opening)
        → IfOk result (λ answer. WasRead limit began (S.left source.new)
        (λ bytes. IsProbedUnder (L.rules guard) meanings places.now bytes answer.text.items answer.verdict)) }
    ensures end { (limit : ℕ) (began : Option (List ℕ))
        → IsStreamed limit began (S.left source.old) opening.stream (begun_log opening)
        → IfErr result (IsEnd limit began (S.left source.new)) }
    ensures faults { KeepsFaults (S.faults source.old) (S.faults source.new) result }
{
    let Opening {
        harts,
        block: _,
        pages,
        mut stream,
    } = opening;
    let mut replayer = Replayer::new(alloc, guard, harts, pages.as_slice(), probes)?;
    match play_rows(alloc, &mut replayer, &mut stream, source) {
        Ok(()) => Ok(told_lines(alloc, guard, places, replayer)?),
        Err(end) => Err(end),
    }
}

/// The result of a run that was played, and the lines at these places.
fn told_lines<L: Lifeguard, B: Probe>(
    alloc: Global,
    guard: L,
    places: &[usize],
    replayer: Replayer<L, B>,
) -> Result<Answer, NoMemory>
    ensures { let watched = HasWatched B.meaning B.has_seen (L.rules guard) replayer.monitor.shadow replayer.audience in
        (meanings : List Meaning) (bytes : List ℕ) → IsPlayed (watched meanings) replayer.monitor.harts bytes
        → IfOk result
        (λ answer. IsProbedUnder (L.rules guard) meanings places.now bytes answer.text.items answer.verdict) }
{
    let replayed = replayer.finish(alloc)?;
    let answer = result_of(alloc, guard, &replayed.monitor)?;
    let Answer { mut text, verdict } = answer;
    push_lines(&mut text, &replayed.lines, places)?;
    Ok(Answer { text, verdict })
}

/// The lines at these places, each with its line feed.
fn push_lines(text: &mut Vec<u8>, lines: &[Vec<u8>], places: &[usize]) -> Result<(), NoMemory>
    ensures { let all = map (λ line. line.items) lines.now in
        OnOk result (text.new.items ≡ text.old.items ++ flat_map (line_at all) places.now) }
{
    for place in places {
        push_line(text, lines, *place)?;
    }
    Ok(())
}

fn push_line(text: &mut Vec<u8>, lines: &[Vec<u8>], place: usize) -> Result<(), AllocError>
    ensures { let all = map (λ line. line.items) lines.now in
        OnOk result (text.new.items ≡ text.old.items ++ line_at all place) }
{
    if place < lines.len() {
        text.extend_from_slice(&lines[place])?;
    }
    text.push(b'\n')?;
    Ok(())
}
