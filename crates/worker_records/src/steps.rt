//! The steps of a hart at the table, by the names of its operations.
ghost use Rattle.std.specs.Prelude.{◌≡◌, ◌+◌, true, false};
ghost use Rattle.order_core.specs.declared.course.Op.{Op};
ghost use Rattle.order_core.specs.Lanes.{HasValueOf};
ghost use Rattle.guard_table.specs.Seats.{plan_of, seat_view, IsSeatOf};
ghost use Rattle.guard_table.specs.Views.{wrote};
ghost use Rattle.worker_laws.specs.Runs.{Run};
ghost use Rattle.worker_records.specs.Steps.{IsReadOf, IsWriteOf};

use guard_table::{GuardSeat, Monitor, Put};
use order_core::Plan;
use pl_base::Steps;
use std::sync::ledger::Ledger;

/// Makes a read that is no check's, which may be made now.
#[inline]
pub fn read<P: Plan>(
    monitor: &Monitor<P>,
    seat: &mut GuardSeat,
    number: u32,
    op: u32,
    word: u32,
) -> u64
    requires of { IsSeatOf P.planned monitor.now seat.old }
    requires may { (p : Run) × (o : Op)
        × IsReadOf (P.planned (plan_of monitor.now)) (seat_view seat.old) number op word false p o }
    ensures of { IsSeatOf P.planned monitor.now seat.new }
    ensures view { seat_view seat.new ≡ seat_view seat.old }
    ensures value { (p : Run) (o : Op)
        → IsReadOf (P.planned (plan_of monitor.now)) (seat_view seat.old) number op word false p o
        → HasValueOf o result }
{
    monitor.read(seat, number, op, word)
}

/// Makes a check's read, which may be made now, and counts a step.
#[inline]
pub fn check_read<P: Plan, K: Ledger>(
    monitor: &Monitor<P>,
    seat: &mut GuardSeat,
    number: u32,
    op: u32,
    word: u32,
    steps: &mut Steps<K>,
) -> u64
    requires of { IsSeatOf P.planned monitor.now seat.old }
    requires may { (p : Run) × (o : Op)
        × IsReadOf (P.planned (plan_of monitor.now)) (seat_view seat.old) number op word true p o }
    ensures of { IsSeatOf P.planned monitor.now seat.new }
    ensures view { seat_view seat.new ≡ seat_view seat.old }
    ensures value { (p : Run) (o : Op)
        → IsReadOf (P.planned (plan_of monitor.now)) (seat_view seat.old) number op word true p o
        → HasValueOf o result }
    ensures steps { steps.new ≡ steps.old + 1 }
{
    monitor.check_read(seat, number, op, word, steps)
}

/// Performs the hart's next write.
#[inline]
pub fn write<P: Plan>(
    monitor: &Monitor<P>,
    seat: &mut GuardSeat,
    number: u32,
    op: u32,
    word: u32,
    put: Put,
)
    requires of { IsSeatOf P.planned monitor.now seat.old }
    requires may { (o : Op) × IsWriteOf (P.planned (plan_of monitor.now)) (seat_view seat.old) number op word put o }
    ensures of { IsSeatOf P.planned monitor.now seat.new }
    ensures view { seat_view seat.new ≡ wrote (seat_view seat.old) }
{
    monitor.write(seat, number, op, word, put);
}
