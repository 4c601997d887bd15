//! A job's run under the eyes of workers on several threads.
ghost use Rattle.std.specs.Prelude.{IfOk};
ghost use Rattle.pl_event.specs.declared.log.Log.{Log};
ghost use Rattle.core_sim.specs.Valid.{IsValidJob};
ghost use Rattle.run_record.specs.Recorded.{IsLogOfRun};
ghost use Rattle.log_watch.specs.Watched.{IsWatched};

use crate::closing::closed;
use crate::opening::{Begun, opened};
use core_sim::Job;
use lifeguard::Lifeguard;
use lifeguard_crew::run_online;
use log_watch::Watched;
use pl_base::{Gate, NoMemory};
use std::alloc::Global;
use std::sync::Wait;
use std::thread::Threads;

/// What the workers of a job's run find on n threads, beside the run itself, which this thread takes step by step. With
/// `n` 0 there is one thread. What they find is of the log that is recorded of the run.
///
/// A worker passes the gate before each of its turns, with the number of its next record.
pub fn watch_run_on_threads<R: Threads + Wait + Sync, L: Lifeguard + Send + Sync, G: Gate + Sync>(
    rt: &R,
    alloc: Global,
    guard: L,
    job: &Job,
    n: u8,
    gate: &G,
) -> Result<Watched, NoMemory>
    requires { IsValidJob job.now }
    ensures { IfOk result (λ watched. (log : Log) → IsLogOfRun job.now log →
        IsWatched (L.rules guard) log watched) }
{
    let Begun {
        monitor,
        head,
        workers,
        mut feed,
    } = opened(alloc, guard, job)?;
    let finished = run_online(rt, alloc, &monitor, &mut feed, workers, n, gate)?;
    closed(alloc, guard, job, monitor, head, finished)
}
