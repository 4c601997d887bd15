//! A job's run under the eyes of workers, on one thread.
ghost use Rattle.std.specs.Prelude.{IfOk};
ghost use Rattle.pl_event.specs.declared.log.Log.{Log};
ghost use Rattle.core_sim.specs.Valid.{IsValidJob};
ghost use Rattle.run_record.specs.Recorded.{IsLogOfRun};
ghost use Rattle.log_watch.specs.Watched.{IsWatched};

use crate::closing::closed;
use crate::opening::{Begun, opened};
use core_sim::Job;
use lifeguard::Lifeguard;
use lifeguard_crew::run_online_one;
use log_watch::Watched;
use pl_base::NoMemory;
use std::alloc::Global;

/// What the workers of a job's run find, which take turns on this thread with the run itself. It returns, whatever the
/// job: what they find is of the log that is recorded of the run.
pub fn watch_run<L: Lifeguard>(alloc: Global, guard: L, job: &Job) -> Result<Watched, NoMemory>
    requires { IsValidJob job.now }
    ensures { IfOk result (λ watched. (log : Log) → IsLogOfRun job.now log →
        IsWatched (L.rules guard) log watched) }
{
    let Begun {
        monitor,
        head,
        workers,
        mut feed,
    } = opened(alloc, guard, job)?;
    let finished = run_online_one(alloc, &monitor, &mut feed, workers)?;
    closed(alloc, guard, job, monitor, head, finished)
}
