//! A worker that takes its records from a ring.
//!
//! The rings are passed as a `Vec`: a thread promises what it says of them by a snapshot, and that takes a sized value.
ghost use Rattle.std.specs.Prelude.{◌≡◌, ◌<◌, [], IfOk, length};
ghost use mathlib.Core.Option.{some};
ghost use lib.ListN.{get_elem?};
ghost use Rattle.guard_table.specs.Seats.{plan_of};
ghost use Rattle.stream_ring.specs.declared.ends.Ring.{Ring};
ghost use Rattle.stream_ring.specs.Passes.{IsTakeOf, taken};
ghost use Rattle.lifeguard_crew.specs.Drivers.{IsFresh};
ghost use Rattle.ring_feed.specs.Outlets.{AreRings, CanBeFed};
ghost use Rattle.lifeguard_crew.specs.inner.Readers.{IsReader, IsSameReader};

use crate::round_end::RoundEnd;
use guard_table::Monitor;
use order_core::Plan;
use pl_base::{NoMemory, Steps};
use std::sync::Wait;
use std::sync::ledger::Ledger;
use stream_ring::{Ring, RunName, TakePass};
use turn_worker::{Turn, TurnWorker};

/// A worker, with the right to take from the ring of its hart.
#[derive(Drop)]
pub(crate) struct Reader<N, W> {
    pub(crate) worker: W,
    pass: TakePass<N>,
    // How many records were taken from the ring.
    pub(crate) count: u64,
}

// A worker that was fed nothing, with the right to take from the ring of its hart.
pub(crate) fn reader_of<P: Plan, N: RunName, W: TurnWorker>(
    _monitor: &Monitor<P>,
    _rings: &Vec<Ring<N>>,
    pass: TakePass<N>,
    worker: W,
) -> Reader<N, W>
    requires log { N.log ≡ (P.planned (plan_of _monitor.now)).log }
    requires can { CanBeFed N.log }
    requires rings { AreRings N.log.harts _rings.now.items }
    requires inside { (W.view worker).seat.hart < length _rings.now.items }
    requires of { (ring : Ring N) →
        get_elem? _rings.now.items (W.view worker).seat.hart ≡ some ring → IsTakeOf ring pass }
    requires none { taken pass ≡ [] }
    requires fresh { IsFresh P.planned _monitor.now (W.view worker) }
    ensures reader { IsReader P.planned W.view _monitor.now N.log _rings.now.items result }
    ensures worker { result.worker ≡ worker }
{
    Reader {
        worker,
        pass,
        count: 0,
    }
}

// Feeds the worker the next chunk of its ring. Was there one?
pub(crate) fn read<P: Plan, N: RunName, W: TurnWorker, R: Wait>(
    rt: &R,
    _monitor: &Monitor<P>,
    rings: &Vec<Ring<N>>,
    reader: &mut Reader<N, W>,
) -> Result<bool, NoMemory>
    requires { IsReader P.planned W.view _monitor.now N.log rings.now.items reader.old }
    ensures reader { IfOk result (λ _. IsReader P.planned W.view _monitor.now N.log rings.now.items reader.new) }
    ensures same { IfOk result (λ _. IsSameReader W.view reader.old reader.new) }
{
    let ring = &rings[usize::from(reader.worker.hart())];
    let Some(chunk) = ring.take(rt, &mut reader.pass) else {
        return Ok(false);
    };
    let list = chunk.into_list();
    reader.count += list.len() as u64;
    let Ok(()) = reader.worker.feed(list) else {
        return Err(NoMemory);
    };
    Ok(true)
}

// Turns the worker by one record. Ended: it has taken all that it was fed.
fn turn_fed<P: Plan, N: RunName, W: TurnWorker, L: Ledger>(
    monitor: &Monitor<P>,
    _rings: &Vec<Ring<N>>,
    reader: &mut Reader<N, W>,
    steps: &mut Steps<L>,
) -> Result<RoundEnd, NoMemory>
    requires { IsReader P.planned W.view monitor.now N.log _rings.now.items reader.old }
    ensures reader { IfOk result (λ _. IsReader P.planned W.view monitor.now N.log _rings.now.items reader.new) }
    ensures same { IfOk result (λ _. IsSameReader W.view reader.old reader.new) }
{
    match reader.worker.turn(monitor, 1, steps) {
        Turn::Moved => Ok(RoundEnd::Moved),
        Turn::Waiting { .. } => Ok(RoundEnd::Waited),
        Turn::Dry | Turn::Done => Ok(RoundEnd::Ended),
        Turn::NoMemory => Err(NoMemory),
    }
}

// Turns the worker by one record, which may be the first of the next chunk. Ended: the ring was empty.
pub(crate) fn turn_reader<P: Plan, N: RunName, W: TurnWorker, R: Wait, L: Ledger>(
    rt: &R,
    monitor: &Monitor<P>,
    rings: &Vec<Ring<N>>,
    reader: &mut Reader<N, W>,
    steps: &mut Steps<L>,
) -> Result<RoundEnd, NoMemory>
    requires { IsReader P.planned W.view monitor.now N.log rings.now.items reader.old }
    ensures reader { IfOk result (λ _. IsReader P.planned W.view monitor.now N.log rings.now.items reader.new) }
    ensures same { IfOk result (λ _. IsSameReader W.view reader.old reader.new) }
{
    match turn_fed(monitor, rings, reader, steps)? {
        RoundEnd::Ended => {
            if read(rt, monitor, rings, reader)? {
                turn_fed(monitor, rings, reader, steps)
            } else {
                Ok(RoundEnd::Ended)
            }
        }
        end => Ok(end),
    }
}
