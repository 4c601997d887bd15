//! The table of a job's run, after all workers have ended.
ghost use Rattle.std.specs.Prelude.{◌≡◌, IfOk};
ghost use Rattle.pl_event.specs.declared.log.Log.{Log};
ghost use Rattle.core_sim.specs.Valid.{IsValidJob};
ghost use Rattle.run_record.specs.Recorded.{IsLogOfRun};
ghost use Rattle.guard_table.specs.Seats.{IsHeadOf, plan_of};
ghost use Rattle.log_plan.specs.Plans.{plan_of as plan_under};
ghost use Rattle.log_watch.specs.Watched.{IsWatched};
ghost use Rattle.run_watch.specs.Ends.{HasEnded};

use core_sim::Job;
use guard_table::{Head, Monitor};
use job_watch::JobPlan;
use lifeguard::Lifeguard;
use lifeguard_crew::Finished;
use lifeguard_worker::Worker;
use log_text::log_laws;
use log_watch::{Watched, last_words};
use order_core::Plan;
use pl_base::NoMemory;
use run_record::recorded_runs;
use std::alloc::Global;
use turn_worker::TurnWorker;

/// What the workers of a job's run found, of which all have ended.
pub fn closed<'a, L: Lifeguard>(
    alloc: Global,
    guard: L,
    job: &'a Job,
    monitor: Monitor<JobPlan<'a, L>>,
    head: Head,
    finished: Finished,
) -> Result<Watched, NoMemory>
    requires valid { IsValidJob job.now }
    requires plan { (log : Log) → IsLogOfRun job.now log →
        ⟦<JobPlan<'a, L> as Plan>⟧.planned (plan_of monitor) ≡ plan_under (L.rules guard) log }
    requires head { IsHeadOf ⟦<JobPlan<'a, L> as Plan>⟧.planned monitor head }
    requires ended { HasEnded (L.rules guard) ⟦<JobPlan<'a, L> as Plan>⟧.planned
        ⟦<Worker<L> as TurnWorker>⟧.view monitor finished }
    ensures { IfOk result (λ watched. (log : Log) → IsLogOfRun job.now log →
        IsWatched (L.rules guard) log watched) }
{
    recorded_runs();
    log_laws();
    let Finished { results, seats } = finished;
    let words = last_words(alloc, monitor, head, seats)?;
    Ok(Watched { results, words })
}
