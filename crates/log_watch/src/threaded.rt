//! A whole log under the eyes of workers on several threads.
ghost use Rattle.std.specs.Prelude.{◌<◌, length, IfOk};
ghost use Rattle.log_watch.specs.Watched.{IsWatched};

use crate::closing::last_words;
use crate::watch::{crew_of, opened};
use crate::watched::Watched;
use lifeguard::Lifeguard;
use lifeguard_crew::{Finished, run_threads};
use log_check::OrderedLog;
use pl_base::{Gate, NoMemory};
use std::alloc::Global;
use std::sync::Wait;
use std::thread::Threads;

/// What the workers of a log find on n threads, of which the caller's is one. With `n` 0 there is one thread. The log
/// has fewer than 2^32 - 1 lines.
///
/// A worker passes the gate before each of its turns, with the number of its next record.
pub fn watch_on_threads<R: Threads + Wait + Sync, L: Lifeguard + Send + Sync, G: Gate + Sync>(
    rt: &R,
    alloc: Global,
    guard: L,
    log: &OrderedLog,
    n: u8,
    gate: &G,
) -> Result<Watched, NoMemory>
    requires { length log.now.log.lines < 4294967295 }
    ensures { IfOk result (IsWatched (L.rules guard) log.now.log) }
{
    let (monitor, mut head) = opened(alloc, guard, log)?;
    let workers = crew_of(alloc, guard, log, &monitor, &mut head)?;
    let Finished { results, seats } = run_threads(rt, alloc, &monitor, workers, n, gate)?;
    let words = last_words(alloc, monitor, head, seats)?;
    Ok(Watched { results, words })
}
