//! Turns of the readers of a row, by one thread.
ghost use Rattle.std.specs.Prelude.{◌≡◌, ◌<◌, ◌≤◌, IfOk, IsTrue, length};
ghost use Rattle.pl_base.specs.declared.layout.TheConstants.{MAX_HARTS};
ghost use Rattle.lifeguard_crew.specs.inner.Readers.{AllMayRead, KeepsReader, KeepsReaders, MayRead};

use crate::reader::{Reader, turn_reader};
use crate::round_end::RoundEnd;
use crate::slot::Slot;
use crate::turns::wait_shortly;
use crossbeam_utils::atomic::AtomicCell;
use guard_table::Monitor;
use order_core::Plan;
use pl_base::{Gate, NoMemory, Steps};
use std::marker::Brand;
use std::sync::Wait;
use std::sync::ledger::{Blank, Ledger};
use stream_ring::{Ring, RunName};
use turn_worker::TurnWorker;

// Turns the reader of a slot by one record, after it passed the gate.
fn turn_slot<P: Plan, N: RunName, W: TurnWorker, G: Gate, R: Wait, L: Ledger>(
    rt: &R,
    monitor: &Monitor<P>,
    rings: &Vec<Ring<N>>,
    gate: &G,
    hart: u8,
    slot: &mut Slot<Reader<N, W>>,
    steps: &mut Steps<L>,
) -> Result<RoundEnd, NoMemory>
    requires { MayRead P.planned W.view monitor.now N.log rings.now.items slot.old }
    ensures { IfOk result (λ _. KeepsReader P.planned W.view monitor.now N.log rings.now.items slot.old slot.new) }
{
    match slot {
        Slot::Works {
            worker: reader,
            number,
        } => {
            gate.pass(hart, *number);
            let end = turn_reader(rt, monitor, rings, reader, steps)?;
            if let RoundEnd::Moved = end {
                *number = number.saturating_add(1);
            }
            Ok(end)
        }
        Slot::Idle | Slot::Ended { .. } => Ok(RoundEnd::Ended),
    }
}

// Turns each reader of a row once.
pub(crate) fn turn_readers<P: Plan, N: RunName, W: TurnWorker, G: Gate, R: Wait, L: Ledger>(
    rt: &R,
    monitor: &Monitor<P>,
    rings: &Vec<Ring<N>>,
    gate: &G,
    row: &mut [Slot<Reader<N, W>>],
    steps: &mut Steps<L>,
) -> Result<RoundEnd, NoMemory>
    requires few { length row.old ≤ MAX_HARTS }
    requires may { AllMayRead P.planned W.view monitor.now N.log rings.now.items row.old }
    ensures { IfOk result (λ _. KeepsReaders P.planned W.view monitor.now N.log rings.now.items row.old row.new) }
{
    let mut end = RoundEnd::Ended;
    for h in 0..row.len() {
        end = end.and(turn_slot(rt, monitor, rings, gate, h as u8, &mut row[h], steps)?);
    }
    Ok(end)
}

// Turns the readers of a row until no ring has more, after all was offered. False: no memory, here or elsewhere.
fn read_counted<P: Plan, N: RunName, W: TurnWorker, G: Gate, R: Wait, L: Ledger>(
    rt: &R,
    monitor: &Monitor<P>,
    rings: &Vec<Ring<N>>,
    gate: &G,
    stop: &AtomicCell<u64>,
    offered: &AtomicCell<u64>,
    row: &mut [Slot<Reader<N, W>>],
    blank: Blank,
) -> bool
    requires few { length row.old ≤ MAX_HARTS }
    requires may { AllMayRead P.planned W.view monitor.now N.log rings.now.items row.old }
    requires name { blank.name ≡ L.name }
    requires parts { (blank.parts ≡ L.parts) × (0 < blank.parts) }
    ensures { IsTrue result → KeepsReaders P.planned W.view monitor.now N.log rings.now.items row.old row.new }
{
    let mut steps = Steps::<L>::new(blank);
    let mut waits = 0;
    for _ in rt.forever() {
        if stop.load() != 0 {
            return false;
        }
        let last = offered.load() != 0;
        match turn_readers(rt, monitor, rings, gate, row, &mut steps) {
            Ok(RoundEnd::Moved) => waits = 0,
            Ok(RoundEnd::Waited) => waits = wait_shortly(waits),
            Ok(RoundEnd::Ended) => {
                if last {
                    return true;
                }
                waits = wait_shortly(waits);
            }
            Err(NoMemory) => {
                stop.store(1);
                return false;
            }
        }
    }
    unreachable!()
}

// The same with a count of steps of its own.
pub(crate) fn read_row<P: Plan, N: RunName, W: TurnWorker, G: Gate, R: Wait>(
    rt: &R,
    monitor: &Monitor<P>,
    rings: &Vec<Ring<N>>,
    gate: &G,
    stop: &AtomicCell<u64>,
    offered: &AtomicCell<u64>,
    row: &mut [Slot<Reader<N, W>>],
) -> bool
    requires few { length row.old ≤ MAX_HARTS }
    requires may { AllMayRead P.planned W.view monitor.now N.log rings.now.items row.old }
    ensures { IsTrue result → KeepsReaders P.planned W.view monitor.now N.log rings.now.items row.old row.new }
{
    read_counted::<P, N, W, G, R, Brand>(
        rt,
        monitor,
        rings,
        gate,
        stop,
        offered,
        row,
        Blank::new(1),
    )
}
