//! A whole log under the eyes of workers.
ghost use Rattle.std.specs.Prelude.{◌≡◌, ◌<◌, ℕ, length, IfOk};
ghost use mathlib.Core.Option.{some};
ghost use lib.ListN.{get_elem?};
ghost use Rattle.guard_table.specs.Seats.{IsHeadOf, head_view, plan_of};
ghost use Rattle.guard_table.specs.Views.{first_view};
ghost use Rattle.lifeguard_crew.specs.Drivers.{IsReadyCrew};
ghost use Rattle.log_plan.specs.Plans.{opening_list, plan_of as plan_under};
ghost use Rattle.order_core.specs.Course.{course_of};
ghost use Rattle.log_watch.specs.Crews.{AreUnder};
ghost use Rattle.log_watch.specs.Watched.{IsWatched};

use crate::closing::last_words;
use crate::crew::first_crew;
use crate::lines::feed_all;
use crate::watched::Watched;
use guard_table::{Head, Monitor};
use lifeguard::Lifeguard;
use lifeguard_crew::{Finished, run_one_thread};
use lifeguard_worker::Worker;
use log_check::OrderedLog;
use log_plan::LogPlan;
use order_core::Plan;
use pl_base::NoMemory;
use pl_event::PageKind;
use shadow_frames::initial;
use std::alloc::Global;
use turn_worker::TurnWorker;

// The words of the table at the start of a log.
fn opening_words<L: Lifeguard>(
    alloc: Global,
    guard: L,
    log: &OrderedLog,
) -> Result<Vec<u64>, NoMemory>
    ensures { IfOk result (λ words. words.items ≡ opening_list (L.rules guard) log.now.log.pages) }
{
    let states = [
        guard.page_state(PageKind::Data),
        guard.page_state(PageKind::Heap),
        guard.page_state(PageKind::Stack),
    ];
    let words = initial(alloc, log.log().pages.as_slice(), states)?;
    Ok(words)
}

/// The table of a log's plan, and its first seat.
pub(crate) fn opened<'a, L: Lifeguard>(
    alloc: Global,
    guard: L,
    log: &'a OrderedLog,
) -> Result<(Monitor<LogPlan<'a, L>>, Head), NoMemory>
    requires { length log.now.log.lines < 4294967295 }
    ensures plan { IfOk result (λ r.
        ⟦<LogPlan<'a, L> as Plan>⟧.planned (plan_of r.0) ≡ plan_under (L.rules guard) log.now.log) }
    ensures of { IfOk result (λ r. IsHeadOf ⟦<LogPlan<'a, L> as Plan>⟧.planned r.0 r.1) }
    ensures head { IfOk result (λ r.
        head_view r.1 ≡ first_view (course_of (plan_under (L.rules guard) log.now.log))) }
{
    let words = opening_words(alloc, guard, log)?;
    let plan = LogPlan::new(log, guard);
    let opened = Monitor::new(alloc, plan, words)?;
    Ok(opened)
}

/// The workers of a log, each fed its whole stream.
pub(crate) fn crew_of<'a, L: Lifeguard>(
    alloc: Global,
    guard: L,
    log: &OrderedLog,
    monitor: &Monitor<LogPlan<'a, L>>,
    head: &mut Head,
) -> Result<Vec<Worker<L>>, NoMemory>
    requires few { length log.now.log.lines < 4294967295 }
    requires plan { ⟦<LogPlan<'a, L> as Plan>⟧.planned (plan_of monitor.now)
        ≡ plan_under (L.rules guard) log.now.log }
    requires of { IsHeadOf ⟦<LogPlan<'a, L> as Plan>⟧.planned monitor.now head.old }
    requires head { head_view head.old ≡ first_view (course_of (plan_under (L.rules guard) log.now.log)) }
    ensures of { IsHeadOf ⟦<LogPlan<'a, L> as Plan>⟧.planned monitor.now head.new }
    ensures ready { IfOk result (λ workers. IsReadyCrew ⟦<LogPlan<'a, L> as Plan>⟧.planned
        ⟦<Worker<L> as TurnWorker>⟧.view monitor.now workers.items) }
    ensures rules { IfOk result (λ workers. AreUnder ⟦<Worker<L> as TurnWorker>⟧.view (L.rules guard) log.now.log
        workers.items) }
{
    let first = first_crew(alloc, monitor, head, guard)?;
    let workers = feed_all(alloc, log.log(), first)?;
    Ok(workers)
}

/// What the workers of a log find, which take turns on this thread. It returns, whatever the log, which has fewer than
/// 2^32 - 1 lines.
pub fn watch_log<L: Lifeguard>(
    alloc: Global,
    guard: L,
    log: &OrderedLog,
) -> Result<Watched, NoMemory>
    requires { length log.now.log.lines < 4294967295 }
    ensures { IfOk result (IsWatched (L.rules guard) log.now.log) }
{
    let (monitor, mut head) = opened(alloc, guard, log)?;
    let workers = crew_of(alloc, guard, log, &monitor, &mut head)?;
    let Finished { results, seats } = run_one_thread(alloc, &monitor, workers)?;
    let words = last_words(alloc, monitor, head, seats)?;
    Ok(Watched { results, words })
}
