//! What the caller does while threads read: it feeds, and turns the readers of a row of its own.
ghost use Rattle.std.specs.Prelude.{◌≡◌, ◌<◌, ◌≤◌, [], IfOk, IsTrue, length};
ghost use Rattle.pl_base.specs.declared.layout.TheConstants.{MAX_HARTS};
ghost use Rattle.ring_feed.specs.declared.feeding.Feeding.TheVariants.{Ended};
ghost use Rattle.ring_feed.specs.Outlets.{AreOutlets, AreWhole};
ghost use Rattle.lifeguard_crew.specs.inner.Readers.{AllMayRead, KeepsReaders};

use crate::reader::Reader;
use crate::reading::turn_readers;
use crate::round_end::RoundEnd;
use crate::slot::Slot;
use crate::turns::wait_shortly;
use crossbeam_utils::atomic::AtomicCell;
use guard_table::Monitor;
use order_core::Plan;
use pl_base::{Gate, NoMemory, Steps};
use pl_event::Feed;
use ring_feed::{Feeding, Outlet, feed_on};
use std::alloc::Global;
use std::marker::Brand;
use std::sync::Wait;
use std::sync::ledger::{Blank, Ledger};
use stream_ring::{Ring, RunName};
use turn_worker::TurnWorker;

// Feeds for a while, and turns the readers of a row once. Full: a ring was full, and no reader of the row went on.
fn pass_on<P: Plan, N: RunName, F: Feed, W: TurnWorker, G: Gate, R: Wait, L: Ledger>(
    rt: &R,
    alloc: Global,
    monitor: &Monitor<P>,
    rings: &Vec<Ring<N>>,
    gate: &G,
    feed: &mut F,
    outlets: &mut [Outlet<'_, N>],
    row: &mut [Slot<Reader<N, W>>],
    steps: &mut Steps<L>,
) -> Result<Feeding, NoMemory>
    requires outlets { AreOutlets N.log (F.rest feed.old) outlets.old }
    requires few { length row.old ≤ MAX_HARTS }
    requires may { AllMayRead P.planned W.view monitor.now N.log rings.now.items row.old }
    ensures outlets { IfOk result (λ _. AreOutlets N.log (F.rest feed.new) outlets.new) }
    ensures ended { IfOk result (λ f. f ≡ Ended → (F.rest feed.new ≡ []) × AreWhole N.log outlets.new) }
    ensures keeps { IfOk result (λ _. KeepsReaders P.planned W.view monitor.now N.log rings.now.items row.old row.new) }
{
    let feeding = feed_on(rt, alloc, feed, outlets)?;
    match (feeding, turn_readers(rt, monitor, rings, gate, row, steps)?) {
        (Feeding::Full, RoundEnd::Moved) => Ok(Feeding::Fed),
        _ => Ok(feeding),
    }
}

// Feeds until all is offered, and turns the readers of the row between. False: no memory, here or elsewhere.
fn feed_counted<P: Plan, N: RunName, F: Feed, W: TurnWorker, G: Gate, R: Wait, L: Ledger>(
    rt: &R,
    alloc: Global,
    monitor: &Monitor<P>,
    rings: &Vec<Ring<N>>,
    gate: &G,
    stop: &AtomicCell<u64>,
    feed: &mut F,
    outlets: &mut [Outlet<'_, N>],
    row: &mut [Slot<Reader<N, W>>],
    blank: Blank,
) -> bool
    requires outlets { AreOutlets N.log (F.rest feed.old) outlets.old }
    requires few { length row.old ≤ MAX_HARTS }
    requires may { AllMayRead P.planned W.view monitor.now N.log rings.now.items row.old }
    requires name { blank.name ≡ L.name }
    requires parts { (blank.parts ≡ L.parts) × (0 < blank.parts) }
    ensures outlets { IsTrue result → AreOutlets N.log [] outlets.new }
    ensures whole { IsTrue result → AreWhole N.log outlets.new }
    ensures keeps { IsTrue result → KeepsReaders P.planned W.view monitor.now N.log rings.now.items row.old row.new }
    ensures rest { IsTrue result → F.rest feed.new ≡ [] }
{
    let mut steps = Steps::<L>::new(blank);
    let mut waits = 0;
    for _ in rt.forever() {
        if stop.load() != 0 {
            return false;
        }
        match pass_on(
            rt, alloc, monitor, rings, gate, feed, outlets, row, &mut steps,
        ) {
            Ok(Feeding::Ended) => return true,
            Ok(Feeding::Fed) => waits = 0,
            Ok(Feeding::Full) => waits = wait_shortly(waits),
            Err(NoMemory) => {
                stop.store(1);
                return false;
            }
        }
    }
    unreachable!()
}

// The same with a count of steps of its own.
pub(crate) fn feed_all<P: Plan, N: RunName, F: Feed, W: TurnWorker, G: Gate, R: Wait>(
    rt: &R,
    alloc: Global,
    monitor: &Monitor<P>,
    rings: &Vec<Ring<N>>,
    gate: &G,
    stop: &AtomicCell<u64>,
    feed: &mut F,
    outlets: &mut [Outlet<'_, N>],
    row: &mut [Slot<Reader<N, W>>],
) -> bool
    requires outlets { AreOutlets N.log (F.rest feed.old) outlets.old }
    requires few { length row.old ≤ MAX_HARTS }
    requires may { AllMayRead P.planned W.view monitor.now N.log rings.now.items row.old }
    ensures outlets { IsTrue result → AreOutlets N.log [] outlets.new }
    ensures whole { IsTrue result → AreWhole N.log outlets.new }
    ensures keeps { IsTrue result → KeepsReaders P.planned W.view monitor.now N.log rings.now.items row.old row.new }
    ensures rest { IsTrue result → F.rest feed.new ≡ [] }
{
    feed_counted::<P, N, F, W, G, R, Brand>(
        rt,
        alloc,
        monitor,
        rings,
        gate,
        stop,
        feed,
        outlets,
        row,
        Blank::new(1),
    )
}
