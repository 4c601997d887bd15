//! The driver of one thread that feeds its workers: it takes records in pieces, and turns all workers after each.
ghost use Rattle.std.specs.Prelude.{◌≡◌, ◌<◌, [], true, false, IfOk, OnOk, length};
ghost use Rattle.lifeguard_crew.specs.Drivers.{IsFinished, IsFreshCrew, IsReadyCrew, lines_of};
ghost use Rattle.lifeguard_crew.specs.inner.Online.{Every, EachLed, IsFedUpTo, IsOfRun, IsSameWorker, IsTurned};

use crate::finished::Finished;
use crate::one_thread::run_one_thread;
use crate::pieces::{end_streams, share, take_piece};
use guard_table::Monitor;
use order_core::Plan;
use pl_base::{NoMemory, Steps};
use pl_event::Feed;
use ring_feed::PIECE_RECORDS;
use std::alloc::Global;
use std::marker::Brand;
use std::sync::ledger::{Blank, Ledger};
use turn_worker::{Turn, TurnWorker};

// Turns a worker. Has it taken all that it was fed?
fn turn_fed<P: Plan, W: TurnWorker, L: Ledger>(
    monitor: &Monitor<P>,
    worker: &mut W,
    steps: &mut Steps<L>,
) -> Result<bool, NoMemory>
    requires { IsOfRun P.planned monitor.now (W.view worker.old) }
    ensures { IfOk result (λ _. IsTurned (W.view worker.old) (W.view worker.new)) }
{
    match worker.turn(monitor, PIECE_RECORDS, steps) {
        Turn::Dry => Ok(true),
        Turn::Moved | Turn::Waiting { .. } | Turn::Done => Ok(false),
        Turn::NoMemory => Err(NoMemory),
    }
}

// Turns each worker once. Have all taken what they were fed?
fn turn_each<P: Plan, W: TurnWorker, L: Ledger>(
    monitor: &Monitor<P>,
    workers: &mut [W],
    steps: &mut Steps<L>,
) -> Result<bool, NoMemory>
    requires { Every (IsOfRun P.planned monitor.now) W.view workers.old }
    ensures { IfOk result (λ _. EachLed IsTurned W.view workers.old workers.new) }
{
    let mut dry = true;
    for i in 0..workers.len() {
        dry &= turn_fed(monitor, &mut workers[i], steps)?;
    }
    Ok(dry)
}

// Turns the workers until they have taken a piece. Each turn of all takes one record of it at least.
fn turn_piece<P: Plan, W: TurnWorker, L: Ledger>(
    monitor: &Monitor<P>,
    workers: &mut [W],
    steps: &mut Steps<L>,
) -> Result<(), NoMemory>
    requires { Every (IsOfRun P.planned monitor.now) W.view workers.old }
    ensures { OnOk result (EachLed IsTurned W.view workers.old workers.new) }
{
    for _ in 0..PIECE_RECORDS {
        if turn_each(monitor, workers, steps)? {
            return Ok(());
        }
    }
    Ok(())
}

// Feeds the next records and turns the workers. Was none left?
fn pass_piece<P: Plan, F: Feed, W: TurnWorker, L: Ledger>(
    alloc: Global,
    monitor: &Monitor<P>,
    feed: &mut F,
    workers: &mut [W],
    steps: &mut Steps<L>,
) -> Result<bool, NoMemory>
    requires run { Every (IsOfRun P.planned monitor.now) W.view workers.old }
    requires fed { Every (IsFedUpTo (F.rest feed.old)) W.view workers.old }
    ensures same { IfOk result (λ _. EachLed IsSameWorker W.view workers.old workers.new) }
    ensures fed { IfOk result (λ _. Every (IsFedUpTo (F.rest feed.new)) W.view workers.new) }
    ensures none { IfOk result (λ none. none ≡ true → F.rest feed.new ≡ []) }
    ensures less { IfOk result (λ none. none ≡ false → length (F.rest feed.new) < length (F.rest feed.old)) }
{
    let piece = take_piece(alloc, feed)?;
    if piece.is_empty() {
        return Ok(true);
    }
    share(alloc, piece.as_slice(), workers)?;
    turn_piece(monitor, workers, steps)?;
    Ok(false)
}

// Feeds the workers all that is left.
fn feed_rest<P: Plan, F: Feed, W: TurnWorker, L: Ledger>(
    alloc: Global,
    monitor: &Monitor<P>,
    feed: &mut F,
    workers: &mut [W],
    blank: Blank,
) -> Result<(), NoMemory>
    requires run { Every (IsOfRun P.planned monitor.now) W.view workers.old }
    requires fed { Every (IsFedUpTo (F.rest feed.old)) W.view workers.old }
    requires name { blank.name ≡ L.name }
    requires parts { (blank.parts ≡ L.parts) × (0 < blank.parts) }
    ensures same { OnOk result (EachLed IsSameWorker W.view workers.old workers.new) }
    ensures fed { OnOk result (Every (IsFedUpTo []) W.view workers.new) }
    ensures rest { OnOk result (F.rest feed.new ≡ []) }
{
    let mut steps = Steps::<L>::new(blank);
    'pieces: loop {
        if pass_piece(alloc, monitor, feed, workers, &mut steps)? {
            return Ok(());
        }
    }
}

// Feeds the workers all lines of the run.
fn feed_all<P: Plan, F: Feed, W: TurnWorker, L: Ledger>(
    alloc: Global,
    monitor: &Monitor<P>,
    feed: &mut F,
    workers: &mut [W],
    blank: Blank,
) -> Result<(), NoMemory>
    requires crew { IsFreshCrew P.planned W.view monitor.now workers.old }
    requires feed { F.rest feed.old ≡ lines_of P.planned monitor.now }
    requires name { blank.name ≡ L.name }
    requires parts { (blank.parts ≡ L.parts) × (0 < blank.parts) }
    ensures ready { OnOk result (IsReadyCrew P.planned W.view monitor.now workers.new) }
    ensures same { OnOk result (EachLed IsSameWorker W.view workers.old workers.new) }
    ensures rest { OnOk result (F.rest feed.new ≡ []) }
{
    feed_rest::<P, F, W, L>(alloc, monitor, feed, workers, blank)?;
    end_streams(workers);
    Ok(())
}

// The workers, each after it was fed its whole stream.
fn fed_crew<P: Plan, F: Feed, W: TurnWorker, L: Ledger>(
    alloc: Global,
    monitor: &Monitor<P>,
    feed: &mut F,
    mut workers: Vec<W>,
    blank: Blank,
) -> Result<Vec<W>, NoMemory>
    requires crew { IsFreshCrew P.planned W.view monitor.now workers.items }
    requires feed { F.rest feed.old ≡ lines_of P.planned monitor.now }
    requires name { blank.name ≡ L.name }
    requires parts { (blank.parts ≡ L.parts) × (0 < blank.parts) }
    ensures ready { IfOk result (λ ws. IsReadyCrew P.planned W.view monitor.now ws.items) }
    ensures same { IfOk result (λ ws. EachLed IsSameWorker W.view workers.items ws.items) }
    ensures rest { OnOk result (F.rest feed.new ≡ []) }
{
    feed_all::<P, F, W, L>(alloc, monitor, feed, workers.as_mut_slice(), blank)?;
    Ok(workers)
}

/// Feeds the workers the lines of the run, and turns them until all records are taken. It returns, whatever the run.
///
/// It takes at most 64 records from the feed at a time, and turns all workers before it takes more. After an `Ok` the
/// feed is used up.
///
/// # Errors
///
/// `NoMemory` where the feed or a worker answers it, or none is left for a list. The workers and their seats are gone.
pub fn run_online_one<P: Plan, F: Feed, W: TurnWorker>(
    alloc: Global,
    monitor: &Monitor<P>,
    feed: &mut F,
    workers: Vec<W>,
) -> Result<Finished, NoMemory>
    requires crew { IsFreshCrew P.planned W.view monitor.now workers.items }
    requires feed { F.rest feed.old ≡ lines_of P.planned monitor.now }
    ensures finished { IfOk result (IsFinished P.planned W.view monitor.now workers.items) }
    ensures rest { OnOk result (F.rest feed.new ≡ []) }
{
    let ready = fed_crew::<P, F, W, Brand>(alloc, monitor, feed, workers, Blank::new(1))?;
    let finished = run_one_thread(alloc, monitor, ready)?;
    Ok(finished)
}
