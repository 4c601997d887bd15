//! The operations of a record with many, one by one.
ghost use Rattle.std.specs.Prelude.{◌≡◌, ℕ, [], ◌∷◌};
ghost use Rattle.guard_table.specs.Seats.{plan_of, seat_view, IsSeatOf};
ghost use Rattle.guard_table.specs.Views.{wrote};
ghost use Rattle.shadow_frames.specs.Frames.{reads, writes};
ghost use Rattle.worker_records.specs.Shapes.{IsDue, Midst};

use crate::steps::{read, write};
use guard_table::{GuardSeat, Monitor, Put};
use order_core::Plan;

/// Makes the next operation of a record, a read of a whole word.
#[inline]
pub fn read_next<P: Plan>(
    monitor: &Monitor<P>,
    seat: &mut GuardSeat,
    number: u32,
    op: u32,
    word: u32,
) -> u64
    requires of { IsSeatOf P.planned monitor.now seat.old }
    requires due { (m : Midst)
        × IsDue (P.planned (plan_of monitor.now)) (seat_view seat.old) number op (reads word ∷ []) m }
    ensures of { IsSeatOf P.planned monitor.now seat.new }
    ensures view { seat_view seat.new ≡ seat_view seat.old }
    ensures value { (m : Midst)
        → IsDue (P.planned (plan_of monitor.now)) (seat_view seat.old) number op (reads word ∷ []) m
        → result ≡ m.words word }
{
    read(monitor, seat, number, op, word)
}

/// Makes the next operation of a record, a write of a whole word.
#[inline]
pub fn write_next<P: Plan>(
    monitor: &Monitor<P>,
    seat: &mut GuardSeat,
    number: u32,
    op: u32,
    word: u32,
    value: u64,
)
    requires of { IsSeatOf P.planned monitor.now seat.old }
    requires due { (change : ℕ → ℕ) × (m : Midst)
        × IsDue (P.planned (plan_of monitor.now)) (seat_view seat.old) number op (writes word change ∷ []) m
        × (value ≡ change (m.words word)) }
    ensures of { IsSeatOf P.planned monitor.now seat.new }
    ensures view { seat_view seat.new ≡ wrote (seat_view seat.old) }
{
    write(monitor, seat, number, op, word, Put::Store { value });
}
