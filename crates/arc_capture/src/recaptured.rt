//! A log that is recorded anew: a recorder makes a log of its events.
ghost use Rattle.std.specs.Prelude.{◌≡◌, ℕ, ◌<◌, ◌≤◌, [], ◌∷◌, ◌++◌, All, List, length, IfOk, OnOk};
ghost use Rattle.std.specs.List.{cons_option};
ghost use Rattle.pl_base.specs.declared.layout.TheConstants.{MAX_LINES, MAX_RECORDS};
ghost use Rattle.pl_event.specs.declared.event.Event.{Event};
ghost use Rattle.pl_event.specs.Conflicts.{IsOrdered};
ghost use Rattle.pl_event.specs.Numbers.{event_of, events_of};
ghost use Rattle.pl_event.specs.Runs.{IsBlockSize, IsRunLog};
ghost use Rattle.arc_capture.specs.Recorded.{AreRecorded, IsRecorded};
ghost use Rattle.arc_capture.specs.Recorder.{HasRecorded, MayRecord};

use crate::laws::{recorded_events, recorder_lines};
use crate::recorder::Recorder;
use conflict_alerts::placed_logs;
use pl_base::NoMemory;
use pl_event::{Arcs, Line, Lines, Log, PageRuns, Record};
use std::alloc::{AllocError, Global};

/// One more line at the end, which takes no place for arcs where it has none.
fn push_line(lines: &mut Lines, line: Line) -> Result<(), AllocError>
    ensures { OnOk result (lines.new ≡ lines.old ++ line ∷ []) }
{
    if line.arcs == Arcs::none() {
        lines.push_record(line.what)
    } else {
        lines.push(line)
    }
}

fn push_all(lines: &mut Lines, more: &[Line]) -> Result<(), AllocError>
    ensures { OnOk result (lines.new ≡ lines.old ++ more.now) }
{
    for line in more {
        push_line(lines, *line)?;
    }
    Ok(())
}

fn copy_of(alloc: Global, pages: &PageRuns) -> Result<PageRuns, AllocError>
    ensures { IfOk result (λ copy. copy ≡ pages.now) }
{
    let runs = pages.as_slice().to_vec(alloc)?;
    Ok(PageRuns::from_vec(runs))
}

/// Feeds the event of a record, and adds its lines at the end; a notice has none. The lines of one event lie in `more`.
fn record_again(
    recorder: &mut Recorder,
    what: Record,
    more: &mut Vec<Line>,
    lines: &mut Lines,
) -> Result<(), NoMemory>
    requires { (size : ℕ) × (events : List Event)
        × MayRecord recorder.old.placer recorder.old.marker size events lines.old what }
    ensures ok { (size : ℕ) (events : List Event) →
        MayRecord recorder.old.placer recorder.old.marker size events lines.old what →
        OnOk result (HasRecorded recorder.new.placer recorder.new.marker size
        (events ++ cons_option (event_of what) []) lines.new) }
    ensures harts { recorder.new.placer.harts ≡ recorder.old.placer.harts }
{
    match what {
        Record::Event(event) => {
            recorder.feed_into(&event, more)?;
            push_all(lines, more)?;
            Ok(())
        }
        Record::Notice { .. } => Ok(()),
    }
}

/// The lines that a recorder makes of the events of a log.
fn lines_again(alloc: Global, log: &Log, block: u8) -> Result<Lines, NoMemory>
    requires log { IsRunLog log.now }
    requires few { length log.now.lines ≤ MAX_RECORDS }
    requires block { IsBlockSize block }
    ensures lines { IfOk result (AreRecorded log.now.harts block (events_of log.now.lines)) }
    ensures few { IfOk result (λ lines. length lines ≤ MAX_LINES) }
    ensures inside { IfOk result (λ _. All (λ event. event.hart < log.now.harts) (events_of log.now.lines)) }
{
    recorder_lines();
    let mut recorder = Recorder::new(alloc, log.harts, block)?;
    let mut lines = Lines::new(alloc);
    let mut more = Vec::new(alloc);
    'records: for i in 0..log.lines.len() {
        record_again(&mut recorder, log.lines.record(i), &mut more, &mut lines)?;
    }
    Ok(lines)
}

/// The log that a recorder of these blocks makes of the events of a log, of at most 2,000,000 records, with its pages
/// at the start. A block has 16 or 4 bytes.
pub fn recapture(alloc: Global, log: &Log, block: u8) -> Result<Log, NoMemory>
    requires log { IsRunLog log.now }
    requires few { length log.now.lines ≤ MAX_RECORDS }
    requires block { IsBlockSize block }
    ensures recorded { IfOk result (IsRecorded log.now.harts block log.now.pages (events_of log.now.lines)) }
    ensures run { IfOk result IsRunLog }
    ensures ordered { IfOk result IsOrdered }
    ensures few { IfOk result (λ made. length made.lines ≤ MAX_LINES) }
{
    recorded_events();
    placed_logs();
    let pages = copy_of(alloc, &log.pages)?;
    let lines = lines_again(alloc, log, block)?;
    Ok(Log {
        harts: log.harts,
        block,
        pages,
        lines,
    })
}
