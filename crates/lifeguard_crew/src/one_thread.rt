//! The driver of one thread: rounds of turns, and notes where no worker goes on.
ghost use Rattle.std.specs.Prelude.{◌≡◌, ◌≢◌, ℕ, ◌<◌, ◌≤◌, [], IfOk, OnOk, true, length, map, slice_set, vec_len, vec_capacity};
ghost use mathlib.Core.Option.{some};
ghost use lib.ListN.{get_elem?};
ghost use Rattle.turn_worker.specs.Workers.{WorkerView};
ghost use Rattle.turn_worker.specs.Turns.{HasEnded};
ghost use Rattle.lifeguard_crew.specs.Drivers.{IsReady, IsReadyCrew, IsFinished};
ghost use Rattle.lifeguard_crew.specs.inner.Rounds.{heard_from, HasHeard, HaveHeardAll, IsTurn, IsRound};
ghost use Rattle.lifeguard_crew.specs.inner.Rounds.{IsAdvance, HaveFound};

use crate::finished::Finished;
use crate::round_end::RoundEnd;
use guard_table::Monitor;
use order_core::Plan;
use pl_base::{NoMemory, Steps};
use std::alloc::Global;
use std::marker::Brand;
use std::sync::ledger::{Blank, Ledger};
use turn_worker::{Turn, TurnWorker};

/// How many records a worker takes in a turn, at most.
const TURN_RECORDS: u32 = 1;

// Turns a worker.
fn turn_one<P: Plan, W: TurnWorker, L: Ledger>(
    monitor: &Monitor<P>,
    worker: &mut W,
    steps: &mut Steps<L>,
) -> Result<RoundEnd, NoMemory>
    requires { IsReady P.planned monitor.now (W.view worker.old) }
    ensures { IfOk result (IsTurn (W.view worker.old) (W.view worker.new)) }
{
    match worker.turn(monitor, TURN_RECORDS, steps) {
        Turn::Moved => Ok(RoundEnd::Moved),
        Turn::Waiting { .. } => Ok(RoundEnd::Waited),
        Turn::Done => Ok(RoundEnd::Ended),
        Turn::Dry => unreachable!(),
        Turn::NoMemory => Err(NoMemory),
    }
}

// Turns each worker once.
fn round<P: Plan, W: TurnWorker, L: Ledger>(
    monitor: &Monitor<P>,
    workers: &mut [W],
    steps: &mut Steps<L>,
) -> Result<RoundEnd, NoMemory>
    requires { IsReadyCrew P.planned W.view monitor.now workers.old }
    ensures { IfOk result (IsRound (length workers.old) (map W.view workers.old) (map W.view workers.new)) }
{
    let mut end = RoundEnd::Ended;
    for i in 0..workers.len() {
        end = end.and(turn_one(monitor, &mut workers[i], steps)?);
    }
    Ok(end)
}

// Worker i learns how far worker j is.
fn learn_from<P: Plan, W: TurnWorker>(monitor: &Monitor<P>, workers: &mut [W], i: usize, j: usize)
    requires ready { IsReadyCrew P.planned W.view monitor.now workers.old }
    requires i { i < length workers.old }
    requires j { j < length workers.old }
    requires other { j ≢ i }
    ensures { (v w : WorkerView) → let old = map W.view workers.old in
        get_elem? old i ≡ some v → get_elem? old j ≡ some w →
        map W.view workers.new ≡ slice_set old i (heard_from w v) }
{
    let note = workers[j].note(monitor);
    workers[i].learn(monitor, note);
}

// Worker i learns how far each other one is.
fn hear<P: Plan, W: TurnWorker>(monitor: &Monitor<P>, workers: &mut [W], i: usize)
    requires ready { IsReadyCrew P.planned W.view monitor.now workers.old }
    requires i { i < length workers.old }
    ensures { HasHeard i (length workers.old) (map W.view workers.old) (map W.view workers.new) }
{
    for j in 0..workers.len() {
        if j != i {
            learn_from(monitor, workers, i, j);
        }
    }
}

// Each worker learns how far each other one is.
fn hear_all<P: Plan, W: TurnWorker>(monitor: &Monitor<P>, workers: &mut [W])
    requires { IsReadyCrew P.planned W.view monitor.now workers.old }
    ensures { HaveHeardAll (length workers.old) (map W.view workers.old) (map W.view workers.new) }
{
    for i in 0..workers.len() {
        hear(monitor, workers, i);
    }
}

// A round, and where no worker moved notes and another. Have all ended?
fn advance<P: Plan, W: TurnWorker, L: Ledger>(
    monitor: &Monitor<P>,
    workers: &mut [W],
    steps: &mut Steps<L>,
) -> Result<bool, NoMemory>
    requires { IsReadyCrew P.planned W.view monitor.now workers.old }
    ensures { IfOk result (IsAdvance (map W.view workers.old) (map W.view workers.new)) }
{
    match round(monitor, workers, steps)? {
        RoundEnd::Moved => Ok(false),
        RoundEnd::Ended => Ok(true),
        RoundEnd::Waited => {
            hear_all(monitor, workers);
            match round(monitor, workers, steps)? {
                RoundEnd::Ended => Ok(true),
                _ => Ok(false),
            }
        }
    }
}

// Turns the workers until all have ended.
fn run_rounds<P: Plan, W: TurnWorker, L: Ledger>(
    monitor: &Monitor<P>,
    workers: &mut [W],
    blank: Blank,
) -> Result<(), NoMemory>
    requires ready { IsReadyCrew P.planned W.view monitor.now workers.old }
    requires name { blank.name ≡ L.name }
    requires parts { (blank.parts ≡ L.parts) × (0 < blank.parts) }
    ensures { OnOk result (IsAdvance (map W.view workers.old) (map W.view workers.new) true) }
{
    let mut steps = Steps::<L>::new(blank);
    'rounds: loop {
        if advance(monitor, workers, &mut steps)? {
            return Ok(());
        }
    }
}

// The workers when all have ended.
fn run_all<P: Plan, W: TurnWorker, L: Ledger>(
    monitor: &Monitor<P>,
    mut workers: Vec<W>,
    blank: Blank,
) -> Result<Vec<W>, NoMemory>
    requires ready { IsReadyCrew P.planned W.view monitor.now workers.items }
    requires name { blank.name ≡ L.name }
    requires parts { (blank.parts ≡ L.parts) × (0 < blank.parts) }
    ensures { IfOk result (λ ws. IsAdvance (map W.view workers.items) (map W.view ws.items) true) }
{
    run_rounds::<P, W, L>(monitor, workers.as_mut_slice(), blank)?;
    Ok(workers)
}

// What the workers have found.
fn end_all<W: TurnWorker>(workers: Vec<W>, finished: Finished) -> Finished
    requires ended { (k : ℕ) (w : W) → get_elem? workers.items k ≡ some w → HasEnded (W.view w) }
    requires none { (finished.results.items ≡ []) × (finished.seats.items ≡ []) }
    requires results { vec_len workers ≤ vec_capacity finished.results }
    requires seats { vec_len workers ≤ vec_capacity finished.seats }
    ensures { HaveFound (map W.view workers.items) result }
{
    let Finished {
        mut results,
        mut seats,
    } = finished;
    for worker in workers {
        let (result, seat) = worker.end();
        results.push_reserved(result);
        seats.push_reserved(seat);
    }
    Finished { results, seats }
}

/// Turns the workers until all records are taken. It returns, whatever the run.
///
/// # Errors
///
/// `NoMemory` where a worker answers it, or none is left for the two lists. The workers and their seats are gone.
pub fn run_one_thread<P: Plan, W: TurnWorker>(
    alloc: Global,
    monitor: &Monitor<P>,
    workers: Vec<W>,
) -> Result<Finished, NoMemory>
    requires { IsReadyCrew P.planned W.view monitor.now workers.items }
    ensures { IfOk result (IsFinished P.planned W.view monitor.now workers.items) }
{
    let finished = Finished {
        results: Vec::with_capacity(alloc, workers.len())?,
        seats: Vec::with_capacity(alloc, workers.len())?,
    };
    let workers = run_all::<P, W, Brand>(monitor, workers, Blank::new(1))?;
    Ok(end_all(workers, finished))
}
