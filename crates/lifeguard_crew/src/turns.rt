//! Turns of the workers of a row, by one thread.
ghost use Rattle.std.specs.Prelude.{◌≡◌, ◌<◌, ◌≤◌, IfOk, IsTrue, length};
ghost use Rattle.pl_base.specs.declared.layout.TheConstants.{MAX_HARTS};
ghost use Rattle.lifeguard_crew.specs.declared.round_end.RoundEnd.TheVariants.{Ended};
ghost use Rattle.lifeguard_crew.specs.inner.Slots.{AllMayTurn, AreAtRest, HasEndedIn, IsAtRest};
ghost use Rattle.lifeguard_crew.specs.inner.Slots.{IsEndOf, KeepsRow, KeepsSlot, MayTurn};

use crate::round_end::RoundEnd;
use crate::slot::Slot;
use crossbeam_utils::atomic::AtomicCell;
use guard_table::Monitor;
use order_core::Plan;
use pl_base::{Gate, NoMemory, Steps};
use std::marker::Brand;
use std::sync::Wait;
use std::sync::ledger::{Blank, Ledger};
use std::{hint, mem, thread};
use turn_worker::{Turn, TurnWorker};

/// How many rounds in which all workers of a thread wait pass before the thread yields.
const SPINS: u32 = 64;

// Puts what the worker of a slot has found in its place, which has taken its whole stream.
fn end_slot<W: TurnWorker>(slot: &mut Slot<W>)
    requires { HasEndedIn W.view slot.old }
    ensures { IsEndOf W.view slot.old slot.new }
{
    match mem::replace(slot, Slot::Idle) {
        Slot::Works { worker, .. } => {
            let (result, seat) = worker.end();
            *slot = Slot::Ended { result, seat };
        }
        other => *slot = other,
    }
}

// Turns the worker of a slot by one record, after it passed the gate.
fn turn_slot<P: Plan, W: TurnWorker, G: Gate, L: Ledger>(
    monitor: &Monitor<P>,
    gate: &G,
    hart: u8,
    slot: &mut Slot<W>,
    steps: &mut Steps<L>,
) -> Result<RoundEnd, NoMemory>
    requires { MayTurn P.planned W.view monitor.now slot.old }
    ensures keeps { IfOk result (λ _. KeepsSlot P.planned W.view monitor.now slot.old slot.new) }
    ensures rests { IfOk result (λ end. end ≡ Ended → IsAtRest slot.new) }
{
    match slot {
        Slot::Works { worker, number } => {
            gate.pass(hart, *number);
            match worker.turn(monitor, 1, steps) {
                Turn::Done => {
                    end_slot(slot);
                    Ok(RoundEnd::Ended)
                }
                Turn::NoMemory => Err(NoMemory),
                Turn::Moved => {
                    *number = number.saturating_add(1);
                    Ok(RoundEnd::Moved)
                }
                Turn::Waiting { .. } | Turn::Dry => Ok(RoundEnd::Waited),
            }
        }
        Slot::Idle | Slot::Ended { .. } => Ok(RoundEnd::Ended),
    }
}

// Turns each worker of a row once.
fn turn_all<P: Plan, W: TurnWorker, G: Gate, L: Ledger>(
    monitor: &Monitor<P>,
    gate: &G,
    row: &mut [Slot<W>],
    steps: &mut Steps<L>,
) -> Result<RoundEnd, NoMemory>
    requires few { length row.old ≤ MAX_HARTS }
    requires may { AllMayTurn P.planned W.view monitor.now row.old }
    ensures keeps { IfOk result (λ _. KeepsRow P.planned W.view monitor.now row.old row.new) }
    ensures rests { IfOk result (λ end. end ≡ Ended → AreAtRest row.new) }
{
    let mut end = RoundEnd::Ended;
    for h in 0..row.len() {
        end = end.and(turn_slot(monitor, gate, h as u8, &mut row[h], steps)?);
    }
    Ok(end)
}

// Spins a few times, then yields. How often it has waited in a row.
pub(crate) fn wait_shortly(waits: u32) -> u32 {
    if waits < SPINS {
        hint::spin_loop();
        waits + 1
    } else {
        thread::yield_now();
        waits
    }
}

// Turns the workers of a row until they have ended. False: a worker found no memory, here or elsewhere.
fn run_counted<P: Plan, W: TurnWorker, G: Gate, R: Wait, L: Ledger>(
    rt: &R,
    monitor: &Monitor<P>,
    gate: &G,
    stop: &AtomicCell<u64>,
    row: &mut [Slot<W>],
    blank: Blank,
) -> bool
    requires few { length row.old ≤ MAX_HARTS }
    requires may { AllMayTurn P.planned W.view monitor.now row.old }
    requires name { blank.name ≡ L.name }
    requires parts { (blank.parts ≡ L.parts) × (0 < blank.parts) }
    ensures keeps { IsTrue result → KeepsRow P.planned W.view monitor.now row.old row.new }
    ensures rests { IsTrue result → AreAtRest row.new }
{
    let mut steps = Steps::<L>::new(blank);
    let mut waits = 0;
    for _ in rt.forever() {
        if stop.load() != 0 {
            return false;
        }
        match turn_all(monitor, gate, row, &mut steps) {
            Ok(RoundEnd::Ended) => return true,
            Ok(RoundEnd::Moved) => waits = 0,
            Ok(RoundEnd::Waited) => waits = wait_shortly(waits),
            Err(NoMemory) => {
                stop.store(1);
                return false;
            }
        }
    }
    unreachable!()
}

// The same with a count of steps of its own.
pub(crate) fn run_row<P: Plan, W: TurnWorker, G: Gate, R: Wait>(
    rt: &R,
    monitor: &Monitor<P>,
    gate: &G,
    stop: &AtomicCell<u64>,
    row: &mut [Slot<W>],
) -> bool
    requires few { length row.old ≤ MAX_HARTS }
    requires may { AllMayTurn P.planned W.view monitor.now row.old }
    ensures keeps { IsTrue result → KeepsRow P.planned W.view monitor.now row.old row.new }
    ensures rests { IsTrue result → AreAtRest row.new }
{
    run_counted::<P, W, G, R, Brand>(rt, monitor, gate, stop, row, Blank::new(1))
}
