//! What a worker tells of the records that it has taken.
ghost use Rattle.std.specs.Prelude.{◌≡◌, ◌+◌, ◌≤◌};
ghost use Rattle.guard_table.specs.Seats.{seat_view};
ghost use Rattle.guard_table.specs.Views.{advertised};
ghost use Rattle.worker_records.specs.Places.{IsAt};
ghost use Rattle.worker_records.specs.States.{IsKept};

use guard_table::{GuardSeat, Monitor};
use lifeguard::Lifeguard;
use order_core::Plan;
use worker_records::State;

/// How many records a progress word may be below what is taken.
const MAX_LAG: u64 = 64;

/// Advertises all that is taken, once no load is held. Answers with the progress word.
pub(crate) fn tell_all<P: Plan, L: Lifeguard>(
    monitor: &Monitor<P>,
    seat: &mut GuardSeat,
    guard: L,
    state: &mut State,
) -> u64
    requires at { IsAt P.planned monitor.now (L.rules guard) seat.old }
    requires kept { IsKept (L.rules guard) (seat_view seat.old) state.old }
    ensures told { result ≡ state.old.taken }
    ensures at { IsAt P.planned monitor.now (L.rules guard) seat.new }
    ensures view { seat_view seat.new ≡ advertised result (seat_view seat.old) }
    ensures kept { IsKept (L.rules guard) (seat_view seat.new) state.new }
    ensures others { state.new ≡ record state.old { tracker = state.new.tracker } }
{
    state.settle(monitor, seat, guard);
    u64::from(state.taken)
}

/// Advertises where the next record would leave the progress word too far below: up to the record before the oldest
/// held load, or all that is taken where that load is too old. Answers with the progress word.
pub(crate) fn keep_up<P: Plan, L: Lifeguard>(
    monitor: &Monitor<P>,
    seat: &mut GuardSeat,
    guard: L,
    state: &mut State,
    told: u64,
) -> u64
    requires at { IsAt P.planned monitor.now (L.rules guard) seat.old }
    requires kept { IsKept (L.rules guard) (seat_view seat.old) state.old }
    requires told { (seat_view seat.old).progress ≡ told }
    ensures at { IsAt P.planned monitor.now (L.rules guard) seat.new }
    ensures view { seat_view seat.new ≡ advertised result (seat_view seat.old) }
    ensures rises { told ≤ result }
    ensures near { state.old.taken + 1 ≤ result + 64 }
    ensures kept { IsKept (L.rules guard) (seat_view seat.new) state.new }
    ensures others { state.new ≡ record state.old { tracker = state.new.tracker } }
{
    let taken = u64::from(state.taken);
    if taken < told + MAX_LAG {
        return told;
    }
    match state.tracker.oldest() {
        Some(number) if taken + 1 < u64::from(number) + MAX_LAG => {
            // The oldest held load is one of those that are taken.
            let upto = taken.min(u64::from(number) - 1);
            monitor.advertise(seat, upto);
            upto
        }
        _ => tell_all(monitor, seat, guard, state),
    }
}
