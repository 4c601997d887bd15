//! A feed that holds a record back until a worker has taken one before it.
use crate::jobs::job_of;
use addrcheck::AddrCheck;
use job_watch::JobFeed;
use lifeguard_crew::{Finished, run_online};
use pl_base::{Gate, NoMemory};
use pl_event::{Fed, Feed};
use run_watch::{Begun, opened};
use std::alloc::Global;
use std::hint;
use std::sync::Wait;
use std::sync::atomic::{AtomicBool, Ordering};
use std::test::Fail;
use std::thread::Threads;

/// How many turns the feed waits, before it gives up and hands the record out.
const MOST_TURNS: u32 = 200_000_000;

/// How many records the feed hands out before it waits.
const EARLY_RECORDS: u32 = 64;

/// Tells whether hart 0 has come past its first record.
#[derive(Drop)]
struct Progress {
    came: AtomicBool,
    gave_up: AtomicBool,
}

impl Progress {
    fn new() -> Progress {
        Progress {
            came: AtomicBool::new(false),
            gave_up: AtomicBool::new(false),
        }
    }

    // Waits for hart 0.
    fn hold(&self) {
        for _ in 0..MOST_TURNS {
            if self.came.load(Ordering::SeqCst) {
                return;
            }
            hint::spin_loop();
        }
        self.gave_up.store(true, Ordering::SeqCst);
    }

    /// Whether hart 0 came, and no one gave up before that.
    fn was_held(&self) -> bool {
        self.came.load(Ordering::SeqCst) && !self.gave_up.load(Ordering::SeqCst)
    }
}

impl Gate for Progress {
    fn pass(&self, hart: u8, number: u32) {
        if hart == 0 && number > 1 {
            self.came.store(true, Ordering::SeqCst);
        }
    }
}

/// The feed of a job that holds its 65th record back.
#[derive(Drop)]
struct LateFeed<'a> {
    feed: JobFeed<'a>,
    progress: &'a Progress,
    handed: u32,
}

impl<'a> Feed for LateFeed<'a> {
    ghost rest = { λ late. ⟦<JobFeed<'a> as Feed>⟧.rest late.feed };

    fn next(&mut self) -> Result<Option<Fed>, NoMemory> {
        if self.handed == EARLY_RECORDS {
            self.progress.hold();
        }
        self.handed = self.handed.saturating_add(1);
        self.feed.next()
    }
}

/// Whether the worker of a run takes records while the feed has more of them.
fn feeds_late<R: Threads + Wait + Sync>(rt: &R, alloc: Global) -> Result<bool, NoMemory> {
    let job = job_of(
        alloc,
        ".harts 1\n.schedule rr 1\n.steps 200\n.text\nstay: j stay\n",
    )?;
    let Begun {
        monitor,
        workers,
        feed,
        ..
    } = opened(alloc, AddrCheck, &job)?;
    let progress = Progress::new();
    let mut late = LateFeed {
        feed,
        progress: &progress,
        handed: 0,
    };
    let Finished { results, .. } = run_online(
        rt, alloc, &monitor, &mut late, workers, 1, &progress,
    )?;
    Ok(progress.was_held() && results.len() == 1)
}

#[test]
fn a_worker_takes_records_before_the_feed_has_ended(rt: HostRuntime) -> Result<(), Fail> {
    assert!(rt; feeds_late(&rt, rt.alloc())?);
    Ok(())
}
