//! Events that reach no memory.
ghost use Rattle.std.specs.Prelude.{◌≡◌, ◌≢◌, ℕ, ◌+◌, ◌<◌, true, Some};
ghost use Rattle.pl_base.specs.declared.layout.TheConstants.{REGISTERS};
ghost use Rattle.pl_event.specs.declared.event.Kind.{Kind};
ghost use Rattle.pl_event.specs.declared.event.Kind.TheVariants.{Mv, Op};
ghost use Rattle.lifeguard.specs.declared.guard.Name.TheVariants as name;
ghost use Rattle.lifeguard.specs.Rules.{Rules};
ghost use Rattle.guard_table.specs.declared.view.View.{View};
ghost use Rattle.guard_table.specs.Seats.{seat_view};
ghost use Rattle.worker_records.specs.Places.{IsAt};
ghost use Rattle.worker_records.specs.Plain.{cleared, is_still};
ghost use Rattle.worker_records.specs.States.{IsMade, IsNext};

use crate::state::{Found, State};
use guard_table::{GuardSeat, Monitor};
use lifeguard::{Lifeguard, Name};
use order_core::Plan;

impl State {
    /// Makes an event that changes no register, up to its reports.
    pub fn leave(&self) -> Found
        ensures { (rules : Rules) (v : View) (kind : Kind) → IsNext rules v self.now kind → is_still kind ≡ true
            → IsMade rules v v self.now self.now kind result }
    {
        Found::NONE
    }

    /// Makes an event that clears a register, up to its reports.
    pub fn clear(&mut self, rd: u8) -> Found
        requires { rd < REGISTERS }
        ensures { (rules : Rules) (v : View) (kind : Kind) → IsNext rules v self.old kind → cleared kind ≡ Some rd
            → IsMade rules v v self.old self.new kind result }
    {
        self.tracker.set(rd, 0);
        Found::NONE
    }

    /// Makes a copy of a register, up to its reports: what is held is held twice.
    pub fn copy(&mut self, rd: u8, rs: u8) -> Found
        requires register { rd < REGISTERS }
        requires source { rs < REGISTERS }
        ensures { (rules : Rules) (v : View) → IsNext rules v self.old (Mv rd rs)
            → IsMade rules v v self.old self.new (Mv rd rs) result }
    {
        self.tracker.copy(rd, rs);
        Found::NONE
    }

    // Joins the masks of two registers.
    fn join_masks<P: Plan, L: Lifeguard>(
        &mut self,
        monitor: &Monitor<P>,
        seat: &mut GuardSeat,
        guard: L,
        rd: u8,
        r1: u8,
        r2: u8,
    ) -> Found
        requires at { IsAt P.planned monitor.now (L.rules guard) seat.old }
        requires next { IsNext (L.rules guard) (seat_view seat.old) self.old (Op rd r1 r2) }
        requires register { rd < REGISTERS }
        requires first { r1 < REGISTERS }
        requires second { r2 < REGISTERS }
        requires joins { (L.rules guard).name ≢ name.Addr }
        ensures at { IsAt P.planned monitor.now (L.rules guard) seat.new }
        ensures view { seat_view seat.new ≡ seat_view seat.old }
        ensures made { IsMade (L.rules guard) (seat_view seat.old) (seat_view seat.new) self.old self.new
            (Op rd r1 r2) result }
    {
        let a = self.mask_of(monitor, seat, guard, r1);
        let b = self.mask_of(monitor, seat, guard, r2);
        self.tracker.set(rd, guard.joins(a, b));
        Found::NONE
    }

    /// Makes a computation from two registers, up to its reports.
    pub fn join<P: Plan, L: Lifeguard>(
        &mut self,
        monitor: &Monitor<P>,
        seat: &mut GuardSeat,
        guard: L,
        rd: u8,
        r1: u8,
        r2: u8,
    ) -> Found
        requires at { IsAt P.planned monitor.now (L.rules guard) seat.old }
        requires next { IsNext (L.rules guard) (seat_view seat.old) self.old (Op rd r1 r2) }
        requires register { rd < REGISTERS }
        requires first { r1 < REGISTERS }
        requires second { r2 < REGISTERS }
        ensures at { IsAt P.planned monitor.now (L.rules guard) seat.new }
        ensures view { seat_view seat.new ≡ seat_view seat.old }
        ensures made { IsMade (L.rules guard) (seat_view seat.old) (seat_view seat.new) self.old self.new
            (Op rd r1 r2) result }
    {
        match guard.name() {
            Name::Addr => {
                self.tracker.set(rd, 0);
                Found::NONE
            }
            Name::Taint | Name::Mem => self.join_masks(monitor, seat, guard, rd, r1, r2),
        }
    }
}
