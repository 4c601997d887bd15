//! Held loads, whose reads are made when a mask is asked for.
ghost use Rattle.std.specs.Prelude.{◌≡◌, ◌≢◌, ℕ, ◌+◌, ◌<◌, ◌==◌, not, find, All};
ghost use Rattle.pl_base.specs.declared.layout.TheConstants.{REGISTERS};
ghost use Rattle.pl_event.specs.Valid.{HasValidFields};
ghost use Rattle.lifeguard.specs.Plain.{marked_register};
ghost use Rattle.guard_table.specs.Seats.{seat_view};
ghost use Rattle.inherit_track.specs.declared.state.RegState.TheVariants as reg;
ghost use Rattle.inherit_track.specs.States.{state_in, IsResolved};
ghost use Rattle.worker_laws.specs.Runs.{before, masks_before};
ghost use Rattle.worker_laws.specs.Kept.{HoldsNothing};
ghost use Rattle.worker_records.specs.Places.{IsAt, run_at};
ghost use Rattle.worker_records.specs.Registers.{KeepsKnown};
ghost use Rattle.worker_records.specs.States.{IsKept, parts_of};

use crate::state::State;
use crate::steps::read;
use crate::words::{directory_word, shadow_word, value_op, word_mask};
use guard_table::{GuardSeat, Monitor};
use inherit_track::{Held, RegState};
use lifeguard::Lifeguard;
use order_core::Plan;
use pl_base::layout::REGISTERS;
use pl_event::Kind;

impl State {
    /// Makes the reads of a held load: its mask, by which each register that stands for it is known.
    fn resolve<P: Plan, L: Lifeguard>(
        &mut self,
        monitor: &Monitor<P>,
        seat: &mut GuardSeat,
        guard: L,
        from: Held,
    ) -> u8
        requires at { IsAt P.planned monitor.now (L.rules guard) seat.old }
        requires kept { IsKept (L.rules guard) (seat_view seat.old) self.old }
        requires held { (r : ℕ) × (r < REGISTERS) × (state_in self.old.tracker r ≡ reg.Held from) }
        ensures at { IsAt P.planned monitor.now (L.rules guard) seat.new }
        ensures view { seat_view seat.new ≡ seat_view seat.old }
        ensures kept { IsKept (L.rules guard) (seat_view seat.old) self.new }
        ensures resolved { IsResolved from result (state_in self.old.tracker) (state_in self.new.tracker) }
        ensures others { self.new ≡ record self.old { tracker = self.new.tracker } }
    {
        let directory = read(monitor, seat, from.number, 0, directory_word(from.addr));
        let at = shadow_word(directory, from.addr);
        let word = read(monitor, seat, from.number, value_op(guard.name()), at);
        let mask = word_mask(guard, word, from.width, from.addr);
        self.tracker.resolve(&from, mask);
        mask
    }

    /// The mask of a register, whose load's reads are made where it is held.
    pub fn mask_of<P: Plan, L: Lifeguard>(
        &mut self,
        monitor: &Monitor<P>,
        seat: &mut GuardSeat,
        guard: L,
        r: u8,
    ) -> u8
        requires at { IsAt P.planned monitor.now (L.rules guard) seat.old }
        requires kept { IsKept (L.rules guard) (seat_view seat.old) self.old }
        requires register { r < REGISTERS }
        ensures at { IsAt P.planned monitor.now (L.rules guard) seat.new }
        ensures view { seat_view seat.new ≡ seat_view seat.old }
        ensures kept { IsKept (L.rules guard) (seat_view seat.old) self.new }
        ensures known { state_in self.new.tracker r ≡ reg.Known result }
        ensures keeps { KeepsKnown (state_in self.old.tracker) (state_in self.new.tracker) }
        ensures mask { let v = seat_view seat.old in
            result ≡ masks_before (run_at (L.rules guard) v) v.hart (self.old.taken + 1) r }
        ensures others { self.new ≡ record self.old { tracker = self.new.tracker } }
    {
        match self.tracker.state(r) {
            RegState::Known(mask) => mask,
            RegState::Held(from) => self.resolve(monitor, seat, guard, from),
        }
    }

    /// Makes the reads of all held loads.
    pub fn resolve_all<P: Plan, L: Lifeguard>(
        &mut self,
        monitor: &Monitor<P>,
        seat: &mut GuardSeat,
        guard: L,
    )
        requires at { IsAt P.planned monitor.now (L.rules guard) seat.old }
        requires kept { IsKept (L.rules guard) (seat_view seat.old) self.old }
        ensures at { IsAt P.planned monitor.now (L.rules guard) seat.new }
        ensures view { seat_view seat.new ≡ seat_view seat.old }
        ensures kept { IsKept (L.rules guard) (seat_view seat.old) self.new }
        ensures keeps { KeepsKnown (state_in self.old.tracker) (state_in self.new.tracker) }
        ensures nothing { HoldsNothing (parts_of self.new) }
        ensures others { self.new ≡ record self.old { tracker = self.new.tracker } }
    {
        if self.tracker.oldest().is_none() {
            return;
        }
        for r in 0..REGISTERS {
            self.mask_of(monitor, seat, guard, r);
        }
    }

    /// The first of these registers whose mask is not 0.
    fn first_marked<P: Plan, L: Lifeguard>(
        &mut self,
        monitor: &Monitor<P>,
        seat: &mut GuardSeat,
        guard: L,
        regs: &[u8],
    ) -> Option<u32>
        requires at { IsAt P.planned monitor.now (L.rules guard) seat.old }
        requires kept { IsKept (L.rules guard) (seat_view seat.old) self.old }
        requires registers { All (λ register. register < REGISTERS) regs.now }
        ensures at { IsAt P.planned monitor.now (L.rules guard) seat.new }
        ensures view { seat_view seat.new ≡ seat_view seat.old }
        ensures kept { IsKept (L.rules guard) (seat_view seat.old) self.new }
        ensures found { let v = seat_view seat.old in
            let masks = masks_before (run_at (L.rules guard) v) v.hart (self.old.taken + 1) in
            result ≡ find (λ register. not (masks register == 0)) regs.now }
        ensures others { self.new ≡ record self.old { tracker = self.new.tracker } }
    {
        for reg in regs {
            if self.mask_of(monitor, seat, guard, *reg) != 0 {
                return Some(u32::from(*reg));
            }
        }
        None
    }

    /// The first checked register of an event whose mask is not 0.
    pub fn marked<P: Plan, L: Lifeguard>(
        &mut self,
        monitor: &Monitor<P>,
        seat: &mut GuardSeat,
        guard: L,
        kind: &Kind,
    ) -> Option<u32>
        requires at { IsAt P.planned monitor.now (L.rules guard) seat.old }
        requires kept { IsKept (L.rules guard) (seat_view seat.old) self.old }
        requires valid { HasValidFields kind.now }
        ensures at { IsAt P.planned monitor.now (L.rules guard) seat.new }
        ensures view { seat_view seat.new ≡ seat_view seat.old }
        ensures kept { IsKept (L.rules guard) (seat_view seat.old) self.new }
        ensures found { let v = seat_view seat.old in
            let state = (before (run_at (L.rules guard) v) v.hart (self.old.taken + 1)).state in
            result ≡ marked_register (L.rules guard) state.masks v.hart kind.now }
        ensures others { self.new ≡ record self.old { tracker = self.new.tracker } }
    {
        let checked = guard.checked(kind);
        self.first_marked(
            monitor,
            seat,
            guard,
            &checked.regs[..checked.count as usize],
        )
    }
}
