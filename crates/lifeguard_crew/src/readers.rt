//! The readers of a run at its start.
ghost use Rattle.std.specs.Prelude.{◌≡◌, IfOk, length};
ghost use Rattle.guard_table.specs.Seats.{plan_of};
ghost use Rattle.lifeguard_crew.specs.Drivers.{IsFreshCrew};
ghost use Rattle.ring_feed.specs.Outlets.{AreRings, AreTakes, CanBeFed};
ghost use Rattle.lifeguard_crew.specs.inner.Readers.{AllMayRead, AllRead};

use crate::reader::reader_of;
use crate::reader_threads::Row;
use crate::slot::Slot;
use guard_table::Monitor;
use order_core::Plan;
use pl_base::NoMemory;
use std::alloc::Global;
use stream_ring::{Ring, RunName, TakePass};
use turn_worker::TurnWorker;

// A row with every worker and its ring in its slot.
pub(crate) fn readers_of<P: Plan, N: RunName, W: TurnWorker>(
    alloc: Global,
    monitor: &Monitor<P>,
    rings: &Vec<Ring<N>>,
    takes: Vec<TakePass<N>>,
    workers: Vec<W>,
) -> Result<Row<N, W>, NoMemory>
    requires log { N.log ≡ (P.planned (plan_of monitor.now)).log }
    requires can { CanBeFed N.log }
    requires rings { AreRings N.log.harts rings.now.items }
    requires takes { AreTakes rings.now.items takes.items }
    requires crew { IsFreshCrew P.planned W.view monitor.now workers.items }
    ensures size { IfOk result (λ row. length row.items ≡ length workers.items) }
    ensures may { IfOk result (λ row. AllMayRead P.planned W.view monitor.now N.log rings.now.items row.items) }
    ensures all { IfOk result (λ row. AllRead W.view workers.items row.items) }
{
    let mut row = Vec::with_capacity(alloc, workers.len())?;
    let mut passes = takes.into_iter();
    for worker in workers {
        let Some(pass) = passes.next() else {
            unreachable!()
        };
        let worker = reader_of(monitor, rings, pass, worker);
        row.push(Slot::Works { worker, number: 1 })?;
    }
    Ok(row)
}
