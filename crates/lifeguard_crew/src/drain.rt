//! What is left in the rings after the threads have ended.
ghost use Rattle.std.specs.Prelude.{◌≡◌, [], IfOk, OnOk, length};
ghost use Rattle.stream_ring.specs.Flow.{stream_of};
ghost use Rattle.lifeguard_crew.specs.Drivers.{IsReady};
ghost use Rattle.lifeguard_crew.specs.inner.Online.{IsSameWorker};
ghost use Rattle.ring_feed.specs.Outlets.{AreOutlets, AreWhole};
ghost use Rattle.lifeguard_crew.specs.inner.Readers.{AreDrained, AreReaders, IsReader, IsSameReader};

use crate::reader::{Reader, read};
use crate::reader_threads::Row;
use crate::slot::Slot;
use guard_table::Monitor;
use order_core::Plan;
use pl_base::NoMemory;
use ring_feed::Outlet;
use std::alloc::Global;
use std::sync::Wait;
use stream_ring::{Ring, RunName};
use turn_worker::TurnWorker;

// Feeds the worker what is left in its ring, of so many records in all.
fn drain<P: Plan, N: RunName, W: TurnWorker, R: Wait>(
    rt: &R,
    monitor: &Monitor<P>,
    rings: &Vec<Ring<N>>,
    reader: &mut Reader<N, W>,
    all: u64,
) -> Result<(), NoMemory>
    requires { IsReader P.planned W.view monitor.now N.log rings.now.items reader.old }
    ensures reader { OnOk result (IsReader P.planned W.view monitor.now N.log rings.now.items reader.new) }
    ensures same { OnOk result (IsSameReader W.view reader.old reader.new) }
    ensures all { OnOk result (reader.new.count ≡ all) }
{
    for _ in rt.forever() {
        if reader.count == all {
            return Ok(());
        }
        read(rt, monitor, rings, reader)?;
    }
    unreachable!()
}

// The worker, fed its whole stream, which has so many records.
fn ready_worker<P: Plan, N: RunName, W: TurnWorker, R: Wait>(
    rt: &R,
    monitor: &Monitor<P>,
    rings: &Vec<Ring<N>>,
    mut reader: Reader<N, W>,
    all: u64,
) -> Result<W, NoMemory>
    requires reader { IsReader P.planned W.view monitor.now N.log rings.now.items reader }
    requires all { all ≡ length (stream_of N.log (W.view reader.worker).seat.hart) }
    ensures ready { IfOk result (λ w. IsReady P.planned monitor.now (W.view w)) }
    ensures same { IfOk result (λ w. IsSameWorker (W.view reader.worker) (W.view w)) }
{
    drain(rt, monitor, rings, &mut reader, all)?;
    let mut worker = reader.worker;
    worker.no_more();
    Ok(worker)
}

// The workers of a row, each fed its whole stream.
pub(crate) fn ready_workers<P: Plan, N: RunName, W: TurnWorker, R: Wait>(
    rt: &R,
    alloc: Global,
    monitor: &Monitor<P>,
    rings: &Vec<Ring<N>>,
    row: Row<N, W>,
    outlets: &[Outlet<'_, N>],
) -> Result<Vec<W>, NoMemory>
    requires readers { AreReaders P.planned W.view monitor.now N.log rings.now.items row.items }
    requires size { length row.items ≡ N.log.harts }
    requires outlets { AreOutlets N.log [] outlets.now }
    requires whole { AreWhole N.log outlets.now }
    ensures { IfOk result (λ ws. AreDrained P.planned W.view monitor.now row.items ws.items) }
{
    let mut workers = Vec::new(alloc);
    for slot in row {
        match slot {
            Slot::Works { worker, .. } => {
                let all = outlets[workers.len()].count();
                workers.push(ready_worker(rt, monitor, rings, worker, all)?)?;
            }
            _ => unreachable!(),
        }
    }
    Ok(workers)
}
