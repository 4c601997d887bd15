//! The table of a job's run, its workers and its feed, before the first step.
ghost use Rattle.std.specs.Prelude.{◌≡◌, IfOk};
ghost use Rattle.pl_event.specs.declared.log.Log.{Log};
ghost use Rattle.core_sim.specs.Start.{start_runs};
ghost use Rattle.core_sim.specs.Valid.{IsValidJob};
ghost use Rattle.run_record.specs.Recorded.{IsLogOfRun};
ghost use Rattle.guard_table.specs.Seats.{IsHeadOf, head_view, plan_of};
ghost use Rattle.guard_table.specs.Views.{first_view};
ghost use Rattle.lifeguard_crew.specs.Drivers.{IsFreshCrew, lines_of};
ghost use Rattle.log_plan.specs.Plans.{opening_list, plan_of as plan_under};
ghost use Rattle.log_watch.specs.Crews.{AreFirst, table_id_of};
ghost use Rattle.order_core.specs.Course.{course, course_of};

use core_sim::{Job, start_pages};
use guard_table::{Head, Monitor};
use job_watch::{JobFeed, JobPlan};
use lifeguard::Lifeguard;
use lifeguard_worker::Worker;
use log_watch::first_crew;
use order_core::Plan;
use pl_base::NoMemory;
use pl_event::{Feed, PageKind};
use run_log::run_logs;
use shadow_frames::initial;
use std::alloc::Global;
use turn_worker::TurnWorker;

/// A job's run before its first step.
#[derive(Drop)]
pub struct Begun<'a, L: Lifeguard> {
    pub monitor: Monitor<JobPlan<'a, L>>,
    pub head: Head,
    pub workers: Vec<Worker<L>>,
    pub feed: JobFeed<'a>,
}

// The words of the table at the start of a job.
fn opening_words<L: Lifeguard>(alloc: Global, guard: L, job: &Job) -> Result<Vec<u64>, NoMemory>
    requires { IsValidJob job.now }
    ensures { IfOk result (λ words. words.items ≡ opening_list (L.rules guard) (start_runs job.now)) }
{
    let states = [
        guard.page_state(PageKind::Data),
        guard.page_state(PageKind::Heap),
        guard.page_state(PageKind::Stack),
    ];
    let pages = start_pages(alloc, job)?;
    let words = initial(alloc, pages.as_slice(), states)?;
    Ok(words)
}

// The table of a job's plan, and its first seat.
fn table_of<'a, L: Lifeguard>(
    alloc: Global,
    guard: L,
    job: &'a Job,
) -> Result<(Monitor<JobPlan<'a, L>>, Head), NoMemory>
    requires { IsValidJob job.now }
    ensures plan { IfOk result (λ r. (log : Log) → IsLogOfRun job.now log →
        ⟦<JobPlan<'a, L> as Plan>⟧.planned (plan_of r.0) ≡ plan_under (L.rules guard) log) }
    ensures of { IfOk result (λ r. IsHeadOf ⟦<JobPlan<'a, L> as Plan>⟧.planned r.0 r.1) }
    ensures head { IfOk result (λ r. (log : Log) → IsLogOfRun job.now log →
        head_view r.1 ≡ first_view (course_of (plan_under (L.rules guard) log))) }
{
    run_logs();
    let words = opening_words(alloc, guard, job)?;
    let plan = JobPlan::new(job, guard);
    let opened = Monitor::new(alloc, plan, words)?;
    Ok(opened)
}

/// The run of a job before its first step, with a worker for each hart, which was fed nothing.
pub fn opened<'a, L: Lifeguard>(
    alloc: Global,
    guard: L,
    job: &'a Job,
) -> Result<Begun<'a, L>, NoMemory>
    requires { IsValidJob job.now }
    ensures plan { IfOk result (λ o. (log : Log) → IsLogOfRun job.now log →
        ⟦<JobPlan<'a, L> as Plan>⟧.planned (plan_of o.monitor) ≡ plan_under (L.rules guard) log) }
    ensures head { IfOk result (λ o. IsHeadOf ⟦<JobPlan<'a, L> as Plan>⟧.planned o.monitor o.head) }
    ensures firsts { IfOk result (λ o. AreFirst ⟦<Worker<L> as TurnWorker>⟧.view (L.rules guard)
        (table_id_of o.monitor) (course ⟦<JobPlan<'a, L> as Plan>⟧.planned (plan_of o.monitor)) o.workers.items) }
    ensures crew { IfOk result (λ o. IsFreshCrew ⟦<JobPlan<'a, L> as Plan>⟧.planned
        ⟦<Worker<L> as TurnWorker>⟧.view o.monitor o.workers.items) }
    ensures feed { IfOk result (λ o. ⟦<JobFeed<'a> as Feed>⟧.rest o.feed
        ≡ lines_of ⟦<JobPlan<'a, L> as Plan>⟧.planned o.monitor) }
{
    run_logs();
    let (monitor, mut head) = table_of(alloc, guard, job)?;
    let workers = first_crew(alloc, &monitor, &mut head, guard)?;
    let feed = JobFeed::new(alloc, job)?;
    Ok(Begun {
        monitor,
        head,
        workers,
        feed,
    })
}
