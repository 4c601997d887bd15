//! What a worker tells of the records that it has taken.
ghost use Rattle.std.specs.Prelude.{◌≡◌};
ghost use Rattle.guard_table.specs.Seats.{seat_view};
ghost use Rattle.guard_table.specs.Views.{advertised};
ghost use Rattle.worker_laws.specs.Kept.{HoldsNothing};
ghost use Rattle.worker_records.specs.Places.{IsAt};
ghost use Rattle.worker_records.specs.States.{IsKept, parts_of};

use crate::state::State;
use guard_table::{GuardSeat, Monitor};
use lifeguard::Lifeguard;
use order_core::Plan;

impl State {
    /// Makes the reads of all held loads, and advertises all that is taken.
    pub fn settle<P: Plan, L: Lifeguard>(
        &mut self,
        monitor: &Monitor<P>,
        seat: &mut GuardSeat,
        guard: L,
    )
        requires at { IsAt P.planned monitor.now (L.rules guard) seat.old }
        requires kept { IsKept (L.rules guard) (seat_view seat.old) self.old }
        ensures at { IsAt P.planned monitor.now (L.rules guard) seat.new }
        ensures view { seat_view seat.new ≡ advertised self.old.taken (seat_view seat.old) }
        ensures kept { IsKept (L.rules guard) (seat_view seat.new) self.new }
        ensures nothing { HoldsNothing (parts_of self.new) }
        ensures others { self.new ≡ record self.old { tracker = self.new.tracker } }
    {
        self.resolve_all(monitor, seat, guard);
        monitor.advertise(seat, u64::from(self.taken));
    }
}
