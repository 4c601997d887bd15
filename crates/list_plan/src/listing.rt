//! The plan of a log, record by record.
ghost use Rattle.std.specs.Prelude.{◌≡◌, ◌<◌, ◌≤◌, [], ◌++◌, List, length, slice_index, IfOk, OnOk};
ghost use Rattle.std.specs.List.{cons_option};
ghost use Rattle.pl_base.specs.declared.layout.TheConstants.{MAX_RECORDS};
ghost use Rattle.pl_event.specs.declared.event.Event.{Event};
ghost use Rattle.pl_event.specs.declared.log.PageRun.{PageRun};
ghost use Rattle.pl_event.specs.Numbers.{event_of};
ghost use Rattle.pl_event.specs.Runs.{IsRunLog};
ghost use Rattle.lifeguard.specs.Shadow.{Represents, place_of};
ghost use Rattle.order_core.specs.Course.{course_of};
ghost use Rattle.order_core.specs.Lists.{listed};
ghost use Rattle.log_plan.specs.Plans.{opening_list, plan_of};
ghost use Rattle.list_plan.specs.Agrees.{Agrees};
ghost use Rattle.pl_event.specs.Valid.{HasValidEvent};
ghost use Rattle.list_plan.specs.inner.Rows.{HasRows};
ghost use Rattle.list_plan.specs.inner.Tables.{IsTable};

use crate::copies::copied_log;
use crate::filler::Filler;
use crate::rows::{add_row, no_rows};
use lifeguard::{Lifeguard, PlainMonitor};
use log_plan::LogPlan;
use order_core::{ListPlan, RecordPlan};
use pl_base::NoMemory;
use pl_event::{Heads, Log, PageKind, Record, record_hart};
use shadow_frames::initial;
use std::alloc::Global;

// The opening words of a log.
fn opening_of<L: Lifeguard>(alloc: Global, log: &Log, guard: L) -> Result<Vec<u64>, NoMemory>
    requires { ∥ IsRunLog log.now ∥₁ }
    ensures words { IfOk result (λ words. words.items ≡ opening_list (L.rules guard) log.now.pages) }
    ensures table { IfOk result (λ words. IsTable words.items) }
{
    let states = [
        guard.page_state(PageKind::Data),
        guard.page_state(PageKind::Heap),
        guard.page_state(PageKind::Stack),
    ];
    let words = initial(alloc, log.pages.as_slice(), states)?;
    Ok(words)
}

// Applies the event of a record; a notice has none.
fn apply_record<L: Lifeguard>(monitor: &mut PlainMonitor<L>, what: &Record) -> Result<(), NoMemory>
    requires valid { ∥ HasValidEvent monitor.old.harts what.now ∥₁ }
    requires room { place_of monitor.old.shadow < MAX_RECORDS }
    ensures represents { OnOk result ((pages : List PageRun) (events : List Event)
        → Represents (L.rules monitor.old.guard) pages events monitor.old.shadow
        → Represents (L.rules monitor.old.guard) pages (events ++ cons_option (event_of what.now) [])
        monitor.new.shadow) }
    ensures guard { monitor.new.guard ≡ monitor.old.guard }
    ensures harts { monitor.new.harts ≡ monitor.old.harts }
{
    match what {
        Record::Event(event) => monitor.apply(event),
        Record::Notice { hart: _, of: _ } => Ok(()),
    }
}

// The records of each hart.
fn list_rows<L: Lifeguard>(
    alloc: Global,
    log: &Log,
    guard: L,
) -> Result<Vec<Vec<RecordPlan>>, NoMemory>
    requires run { ∥ IsRunLog log.now ∥₁ }
    requires few { length log.now.lines ≤ MAX_RECORDS }
    ensures harts { IfOk result (λ streams. length streams.items ≡ log.now.harts) }
    ensures rows { IfOk result (λ streams. HasRows log.now.lines (plan_of (L.rules guard) log.now).operations
        (length log.now.lines) streams.items) }
{
    let opening = opening_of(alloc, log, guard)?;
    let mut filler = Filler::new(alloc, opening);
    let mut monitor = PlainMonitor::new(alloc, guard, log.harts, log.pages.as_slice())?;
    let mut heads = Heads::new();
    let mut streams = no_rows(alloc, log.harts)?;
    for at in 0..log.lines.len() {
        let line = log.lines.get(at);
        let hart = record_hart(&line.what);
        let needs = heads.needs(&line, hart);
        let operations = filler.operations_of(alloc, &monitor, log.block, &line.what)?;
        add_row(&mut streams, hart, RecordPlan { operations, needs })?;
        apply_record(&mut monitor, &line.what)?;
        heads.pass(&line);
    }
    Ok(streams)
}

/// The plan of a log as lists, of which `run_core` can be made. The log has at most 2,000,000 lines.
///
/// # Errors
///
/// `NoMemory` where no memory was left.
pub fn list_plan<'a, L: Lifeguard>(
    alloc: Global,
    plan: &LogPlan<'a, L>,
) -> Result<ListPlan, NoMemory>
    requires few { length plan.now.log.now.log.lines ≤ MAX_RECORDS }
    ensures agrees { IfOk result (λ list. Agrees (plan_of (L.rules plan.now.guard) plan.now.log.now.log)
        (listed list.log list.opening.items list.streams.items)) }
    ensures course { IfOk result (λ list. course_of (listed list.log list.opening.items list.streams.items)
        ≡ course_of (plan_of (L.rules plan.now.guard) plan.now.log.now.log)) }
{
    let log = plan.log().log();
    let guard = plan.guard();
    let opening = opening_of(alloc, log, guard)?;
    let streams = list_rows(alloc, log, guard)?;
    let copy = copied_log(alloc, log)?;
    Ok(ListPlan::new(copy, opening, streams))
}
