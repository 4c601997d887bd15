//! Events, by their kind.
ghost use Rattle.std.specs.Prelude.{◌≡◌, ◌+◌, ◌≤◌, ◌++◌, true};
ghost use Rattle.pl_event.specs.Alerts.{is_alert_kind};
ghost use Rattle.lifeguard.specs.Plain.{reports_of};
ghost use Rattle.guard_table.specs.Seats.{seat_view};
ghost use Rattle.worker_laws.specs.Folds.{steps_at};
ghost use Rattle.worker_laws.specs.Runs.{before, reports_before};
ghost use Rattle.worker_records.specs.Accesses.{HasWritten};
ghost use Rattle.worker_records.specs.Places.{IsAt, run_at};
ghost use Rattle.worker_records.specs.States.{IsKept, IsMade, IsNext, spare};

use crate::operations::operate;
use crate::state::{Found, State};
use guard_table::{GuardSeat, Monitor};
use lifeguard::{EventPlace, Lifeguard};
use order_core::Plan;
use pl_base::Steps;
use pl_event::Kind;
use std::sync::ledger::Ledger;

impl State {
    // Makes an alert event, up to its reports.
    fn alert<P: Plan, L: Lifeguard>(
        &mut self,
        monitor: &Monitor<P>,
        seat: &mut GuardSeat,
        guard: L,
        kind: Kind,
    ) -> Found
        requires at { IsAt P.planned monitor.now (L.rules guard) seat.old }
        requires next { IsNext (L.rules guard) (seat_view seat.old) self.old kind }
        requires alert { is_alert_kind kind ≡ true }
        ensures at { IsAt P.planned monitor.now (L.rules guard) seat.new }
        ensures view { HasWritten (seat_view seat.old) (seat_view seat.new) }
        ensures made { IsMade (L.rules guard) (seat_view seat.old) (seat_view seat.new) self.old self.new kind
            result }
    {
        self.resolve_all(monitor, seat, guard);
        let number = self.taken + 1;
        let found = operate(monitor, seat, guard, number, kind);
        self.look.flush();
        self.filter.flush();
        self.tracker.set(10, 0);
        found
    }

    // Makes an event, up to its reports.
    fn make<P: Plan, L: Lifeguard, K: Ledger>(
        &mut self,
        monitor: &Monitor<P>,
        seat: &mut GuardSeat,
        guard: L,
        kind: Kind,
        steps: &mut Steps<K>,
    ) -> Found
        requires at { IsAt P.planned monitor.now (L.rules guard) seat.old }
        requires next { IsNext (L.rules guard) (seat_view seat.old) self.old kind }
        ensures at { IsAt P.planned monitor.now (L.rules guard) seat.new }
        ensures view { HasWritten (seat_view seat.old) (seat_view seat.new) }
        ensures made { IsMade (L.rules guard) (seat_view seat.old) (seat_view seat.new) self.old self.new kind
            result }
        ensures steps { let v = seat_view seat.old in let p = run_at (L.rules guard) v in
            steps.new + steps_at p v.hart self.old.taken ≡ steps.old + steps_at p v.hart (self.old.taken + 1) }
    {
        match kind {
            Kind::Ld {
                width,
                rd,
                rb: _,
                addr,
            } => self.load(monitor, seat, guard, width, rd, addr, steps),
            Kind::St {
                width,
                rv,
                rb: _,
                addr,
            } => self.store(monitor, seat, guard, width, rv, addr, steps),
            Kind::Op { rd, r1, r2 } => self.join(monitor, seat, guard, rd, r1, r2),
            Kind::Mv { rd, rs } => self.copy(rd, rs),
            Kind::Im { rd } => self.clear(rd),
            Kind::Jr { rd, rs: _ } => self.clear(rd),
            Kind::Bf { addr: _ } => self.clear(10),
            Kind::Br { .. } => self.leave(),
            Kind::Ex => self.leave(),
            Kind::Ft { .. } => self.leave(),
            Kind::Al { .. }
            | Kind::Fr { .. }
            | Kind::Mp { .. }
            | Kind::Um { .. }
            | Kind::Rd { .. }
            | Kind::Wr { .. } => self.alert(monitor, seat, guard, kind),
        }
    }

    /// Takes an event, for whose reports there is room.
    pub fn take_event<P: Plan, L: Lifeguard, K: Ledger>(
        &mut self,
        monitor: &Monitor<P>,
        seat: &mut GuardSeat,
        guard: L,
        at: EventPlace,
        kind: Kind,
        steps: &mut Steps<K>,
    )
        requires at { IsAt P.planned monitor.now (L.rules guard) seat.old }
        requires next { IsNext (L.rules guard) (seat_view seat.old) self.old kind }
        requires hart { at.hart ≡ (seat_view seat.old).hart }
        requires told { let v = seat_view seat.old in let p = run_at (L.rules guard) v in let m = self.old.taken + 1 in
            reports_before p v.hart (m + 1)
            ≡ reports_before p v.hart m ++ reports_of p.rules at kind (before p v.hart m).state }
        requires room { 3 ≤ spare self.old }
        ensures at { IsAt P.planned monitor.now (L.rules guard) seat.new }
        ensures view { HasWritten (seat_view seat.old) (seat_view seat.new) }
        ensures kept { IsKept (L.rules guard) (seat_view seat.new) self.new }
        ensures taken { self.new.taken ≡ self.old.taken + 1 }
        ensures spare { spare self.old ≤ spare self.new + 3 }
        ensures steps { let v = seat_view seat.old in let p = run_at (L.rules guard) v in
            steps.new + steps_at p v.hart self.old.taken ≡ steps.old + steps_at p v.hart (self.old.taken + 1) }
    {
        let marked = self.marked(monitor, seat, guard, &kind);
        let found = self.make(monitor, seat, guard, kind, steps);
        self.tell_all(guard, at, &kind, marked, found);
        self.taken += 1;
    }
}
