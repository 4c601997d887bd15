//! Workers that each wait at their first record for all others, which takes as many threads as there are workers.

use crate::gates::Meeting;
use crate::logs::{log_of, one_record_each};
use addrcheck::AddrCheck;
use log_watch::watch_on_threads;
use pl_base::NoMemory;
use std::alloc::Global;
use std::sync::Wait;
use std::test::Fail;
use std::thread::Threads;

/// Whether the workers of so many harts meet, each on a thread of its own.
fn meet<R: Threads + Wait + Sync>(rt: &R, alloc: Global, harts: u8) -> Result<bool, NoMemory> {
    let text = one_record_each(alloc, harts)?;
    let log = log_of(alloc, text.as_str())?;
    let gate = Meeting::new(harts);
    let watched = watch_on_threads(rt, alloc, AddrCheck, &log, harts, &gate)?;
    Ok(gate.was_held() && watched.results.len() == usize::from(harts))
}

#[test]
fn workers_run_beside_each_other(rt: HostRuntime) -> Result<(), Fail> {
    for harts in 2..=8 {
        assert!(rt; meet(&rt, rt.alloc(), harts)?, "with {harts} harts");
    }
    Ok(())
}
