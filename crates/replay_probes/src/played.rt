//! A whole log, played.
ghost use Rattle.std.specs.Prelude.{◌≡◌, ◌<◌, ◌≤◌, ◌+◌, ◌++◌, [], List, All, IfOk, OnOk, length, map};
ghost use Rattle.std.specs.List.{cons_option};
ghost use Rattle.pl_base.specs.declared.layout.TheConstants.{PAGE_COUNT, MAX_HARTS, MAX_RECORDS};
ghost use Rattle.pl_event.specs.declared.event.Event.{Event};
ghost use Rattle.pl_event.specs.declared.log.PageRun.{PageRun};
ghost use Rattle.pl_event.specs.Numbers.{events_of, event_of};
ghost use Rattle.lifeguard.specs.Shadow.{Represents, place_of};
ghost use Rattle.pl_event.specs.Valid.{HasValidEvent};
ghost use Rattle.replay_probes.specs.CanPlay.{CanPlay, CanPlayLine};
ghost use Rattle.replay_probes.specs.Meaning.{Meaning, line_over};
ghost use Rattle.replay_probes.specs.Plays.{Plays};

use crate::boxed::in_boxes;
use crate::probe::Probe;
use crate::replayer::{Replayed, Replayer};
use lifeguard::Lifeguard;
use pl_base::NoMemory;
use pl_event::{Lines, Log, PageRun, Record};
use std::alloc::Global;

/// Plays all events of a log, one by one in executed order, under a lifeguard and under the eyes of probes that have
/// seen no event.
///
/// The monitor is the plain one, whatever the probes are. Each probe is shown every event once, with its place and its
/// number in its hart, up to its own stop, where it is finished and dropped; the others are at the end.
pub fn replay<L: Lifeguard>(
    alloc: Global,
    log: &Log,
    l: L,
    probes: Vec<Box<dyn Probe>>,
) -> Result<Replayed<L>, NoMemory>
    requires playable { CanPlay log.now }
    requires fresh { All (λ probe. has_seen probe []) probes.items }
    ensures stands { IfOk result (λ replayed. Represents (L.rules l) log.now.pages (events_of log.now.lines)
        replayed.monitor.shadow) }
    ensures guard { IfOk result (λ replayed. replayed.monitor.guard ≡ l) }
    ensures harts { IfOk result (λ replayed. replayed.monitor.harts ≡ log.now.harts) }
    ensures lines { IfOk result (λ replayed. map (λ line. line.items) replayed.lines.items
        ≡ map (line_over (events_of log.now.lines)) (map (λ probe. meaning probe) probes.items)) }
{
    let boxes = in_boxes(alloc, probes)?;
    let replayer = play(alloc, l, log.harts, log.pages.as_slice(), &log.lines, boxes)?;
    let replayed = replayer.finish(alloc)?;
    Ok(replayed)
}

/// Plays the events of these lines.
fn play<L: Lifeguard, B: Probe>(
    alloc: Global,
    l: L,
    harts: u8,
    pages: &[PageRun],
    lines: &Lines,
    probes: Vec<B>,
) -> Result<Replayer<L, B>, NoMemory>
    requires few { harts ≤ MAX_HARTS }
    requires inside { All (λ run. run.first + run.count ≤ PAGE_COUNT) pages.now }
    requires valid { All (CanPlayLine harts) lines.now }
    requires short { length lines.now ≤ MAX_RECORDS }
    requires fresh { All (λ probe. B.has_seen probe []) probes.items }
    ensures plays { IfOk result (λ replayer. Plays B.meaning B.has_seen (L.rules l) pages.now
        (map B.meaning probes.items) (events_of lines.now) replayer.monitor.shadow replayer.audience) }
    ensures guard { IfOk result (λ replayer. replayer.monitor.guard ≡ l) }
    ensures harts { IfOk result (λ replayer. replayer.monitor.harts ≡ harts) }
{
    let mut replayer = Replayer::new(alloc, l, harts, pages, probes)?;
    for i in 0..lines.len() {
        step_record(alloc, &mut replayer, lines.record(i))?;
    }
    Ok(replayer)
}

/// Plays the event of a record; a notice has none.
#[inline]
fn step_record<L: Lifeguard, B: Probe>(
    alloc: Global,
    replayer: &mut Replayer<L, B>,
    what: Record,
) -> Result<(), NoMemory>
    requires valid { HasValidEvent replayer.old.monitor.harts what }
    requires room { place_of replayer.old.monitor.shadow < MAX_RECORDS }
    ensures plays { OnOk result ((pages : List PageRun) (meanings : List Meaning) (events : List Event)
        → Plays B.meaning B.has_seen (L.rules replayer.old.monitor.guard) pages meanings events
        replayer.old.monitor.shadow replayer.old.audience
        → Plays B.meaning B.has_seen (L.rules replayer.old.monitor.guard) pages meanings
        (events ++ cons_option (event_of what) []) replayer.new.monitor.shadow replayer.new.audience) }
    ensures guard { replayer.new.monitor.guard ≡ replayer.old.monitor.guard }
    ensures harts { replayer.new.monitor.harts ≡ replayer.old.monitor.harts }
{
    match what {
        Record::Event(event) => {
            replayer.step(alloc, &event)?;
            Ok(())
        }
        Record::Notice { .. } => Ok(()),
    }
}
