//! Notices, at which nothing is kept of what was read before.
ghost use Rattle.std.specs.Prelude.{◌≡◌, ℕ, ◌+◌};
ghost use Rattle.pl_event.specs.declared.log.Line.{Line};
ghost use Rattle.pl_event.specs.declared.log.Point.{Point};
ghost use Rattle.pl_event.specs.declared.log.Record.TheVariants as entry;
ghost use Rattle.pl_event.specs.Records.{IsRecord};
ghost use Rattle.guard_table.specs.Seats.{seat_view};
ghost use Rattle.worker_laws.specs.Folds.{steps_at};
ghost use Rattle.worker_records.specs.Places.{IsAt, run_at};
ghost use Rattle.worker_records.specs.States.{IsKept, IsReady};

use crate::state::State;
use guard_table::{GuardSeat, Monitor};
use lifeguard::Lifeguard;
use order_core::Plan;

impl State {
    /// Takes a notice.
    pub fn take_notice<P: Plan, L: Lifeguard>(
        &mut self,
        monitor: &Monitor<P>,
        seat: &mut GuardSeat,
        guard: L,
    )
        requires at { IsAt P.planned monitor.now (L.rules guard) seat.old }
        requires ready { IsReady (L.rules guard) (seat_view seat.old) self.old }
        requires notice { let v = seat_view seat.old in let p = run_at (L.rules guard) v in
            (i : ℕ) × (line : Line) × (hart : ℕ) × (of : Point)
            × IsRecord p.plan.log.lines i v.hart (self.old.taken + 1) line × (line.what ≡ entry.Notice hart of) }
        ensures at { IsAt P.planned monitor.now (L.rules guard) seat.new }
        ensures view { seat_view seat.new ≡ seat_view seat.old }
        ensures kept { IsKept (L.rules guard) (seat_view seat.new) self.new }
        ensures taken { self.new.taken ≡ self.old.taken + 1 }
        ensures reports { self.new.reports ≡ self.old.reports }
        ensures steps { let v = seat_view seat.old in let p = run_at (L.rules guard) v in
            steps_at p v.hart self.new.taken ≡ steps_at p v.hart self.old.taken }
    {
        self.resolve_all(monitor, seat, guard);
        self.look.flush();
        self.filter.flush();
        self.taken += 1;
    }
}
