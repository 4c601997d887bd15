//! Loads and stores.
ghost use Rattle.std.specs.Prelude.{◌≡◌, ◌≢◌, ℕ, ◌+◌, ◌*◌, ◌/◌, ◌^◌, ◌<◌, ◌≤◌, ◌⊎◌};
ghost use Rattle.pl_base.specs.declared.layout.TheConstants.{REGISTERS, MAX_MAPPED_PAGES};
ghost use Rattle.pl_event.specs.declared.event.Kind.TheVariants.{Ld, St};
ghost use Rattle.lifeguard.specs.declared.guard.Name.TheVariants as name;
ghost use Rattle.guard_table.specs.Seats.{plan_of, seat_view};
ghost use Rattle.guard_table.specs.Views.{wrote};
ghost use Rattle.inherit_track.specs.declared.state.Held.{Held};
ghost use Rattle.inherit_track.specs.declared.state.RegState.TheVariants as reg;
ghost use Rattle.inherit_track.specs.States.{LiesIn, state_in, with_state};
ghost use Rattle.worker_laws.specs.Folds.{steps_at};
ghost use Rattle.worker_laws.specs.Reads.{directory_of};
ghost use Rattle.worker_laws.specs.Runs.{before, masks_before};
ghost use Rattle.worker_records.specs.Places.{IsAt, run_at};
ghost use Rattle.worker_records.specs.Registers.{KeepsKnown};
ghost use Rattle.worker_records.specs.States.{IsKept, IsMade, IsNext, IsReady, parts_of};
ghost use Rattle.worker_records.specs.Accesses as accesses;
ghost use Rattle.worker_records.specs.Accesses.{HasWritten, loaded_state};

use crate::state::{Found, State};
use crate::steps::{read, write};
use crate::words::{shadow_word, value_op, word_after};
use guard_table::{GuardSeat, Monitor, Put};
use inherit_track::Held;
use lifeguard::{Lifeguard, Name, load_mask};
use order_core::Plan;
use pl_base::layout::BLOCK_BYTES;
use pl_base::{LoadWidth, Steps, StoreWidth};
use std::sync::ledger::Ledger;

// How a word is changed to another: as a whole where its block is ordered as a whole, else only where its bits differ.
fn put_of(block: u8, word: u64, after: u64) -> Put
    ensures { result ≡ accesses.put_of block word after }
{
    if block == BLOCK_BYTES {
        Put::Store { value: after }
    } else {
        Put::Flip { bits: word ^ after }
    }
}

impl State {
    // The register of a load is held where its page is mapped; else, and under an address check, it is known.
    fn put_loaded<L: Lifeguard>(&mut self, guard: L, rd: u8, from: Held, directory: u64)
        requires register { rd < REGISTERS }
        requires near { from.addr < 16777216 }
        ensures states { let x = loaded_state (L.rules guard) from directory in
            (r : ℕ) → state_in self.new.tracker r ≡ with_state (state_in self.old.tracker) rd x r }
        ensures others { self.new ≡ record self.old { tracker = self.new.tracker } }
    {
        if directory == 0 || guard.name() == Name::Addr {
            let mask = load_mask(&guard, [0; 4], from.width);
            self.tracker.set(rd, mask);
        } else {
            self.tracker.load(rd, from);
        }
    }

    /// Makes a load, up to its reports: its mask is read when a rule asks for it.
    pub fn load<P: Plan, L: Lifeguard, K: Ledger>(
        &mut self,
        monitor: &Monitor<P>,
        seat: &mut GuardSeat,
        guard: L,
        width: LoadWidth,
        rd: u8,
        addr: u32,
        steps: &mut Steps<K>,
    ) -> Found
        requires at { IsAt P.planned monitor.now (L.rules guard) seat.old }
        requires next { (rb : ℕ) × IsNext (L.rules guard) (seat_view seat.old) self.old (Ld width rd rb addr) }
        ensures at { IsAt P.planned monitor.now (L.rules guard) seat.new }
        ensures view { seat_view seat.new ≡ seat_view seat.old }
        ensures made { (rb : ℕ) → IsNext (L.rules guard) (seat_view seat.old) self.old (Ld width rd rb addr)
            → IsMade (L.rules guard) (seat_view seat.old) (seat_view seat.new) self.old self.new (Ld width rd rb addr)
            result }
        ensures steps { let v = seat_view seat.old in let p = run_at (L.rules guard) v in
            steps.new + steps_at p v.hart self.old.taken ≡ steps.old + steps_at p v.hart (self.old.taken + 1) }
    {
        let len = width.bytes();
        let directory = self.directory(monitor, seat, guard, addr);
        let outcome = self.check(monitor, seat, guard, addr, len, directory, steps);
        self.count(outcome, addr, len);
        self.keep_frame(addr, directory);
        let number = self.taken + 1;
        let from = Held {
            addr,
            width,
            number,
        };
        self.put_loaded(guard, rd, from, directory);
        Found::touched(outcome.bad())
    }

    // Makes the reads of held loads, where one lies in the block of an address.
    fn free_block<P: Plan, L: Lifeguard>(
        &mut self,
        monitor: &Monitor<P>,
        seat: &mut GuardSeat,
        guard: L,
        addr: u32,
    )
        requires at { IsAt P.planned monitor.now (L.rules guard) seat.old }
        requires kept { IsKept (L.rules guard) (seat_view seat.old) self.old }
        requires near { addr < 16777216 }
        ensures at { IsAt P.planned monitor.now (L.rules guard) seat.new }
        ensures view { seat_view seat.new ≡ seat_view seat.old }
        ensures kept { IsKept (L.rules guard) (seat_view seat.old) self.new }
        ensures apart { let block = (P.planned (plan_of monitor.now)).log.block in (r : ℕ) (from : Held)
            → (parts_of self.new).states r ≡ reg.Held from → LiesIn (block * (addr / block)) block from → ⊥ }
        ensures others { self.new ≡ record self.old { tracker = self.new.tracker } }
    {
        let block = monitor.block();
        let bytes = u32::from(block);
        if self.tracker.holds(bytes * (addr / bytes), block) {
            self.resolve_all(monitor, seat, guard);
        }
    }

    // Makes the read and the write of the value of a store on a mapped page.
    fn put_stored<P: Plan, L: Lifeguard>(
        &self,
        monitor: &Monitor<P>,
        seat: &mut GuardSeat,
        guard: L,
        width: StoreWidth,
        mask: u8,
        addr: u32,
        directory: u64,
    )
        requires at { IsAt P.planned monitor.now (L.rules guard) seat.old }
        requires next { let v = seat_view seat.old in (rv : ℕ) × (rb : ℕ)
            × IsNext (L.rules guard) v self.now (St width rv rb addr)
            × (mask ≡ masks_before (run_at (L.rules guard) v) v.hart (self.now.taken + 1) rv) }
        requires stores { (L.rules guard).name ≢ name.Addr }
        requires some { directory ≢ 0 }
        requires small { directory ≤ MAX_MAPPED_PAGES }
        requires directory { let v = seat_view seat.old in
            directory ≡ (before (run_at (L.rules guard) v) v.hart (self.now.taken + 1)).words (directory_of addr) }
        ensures at { IsAt P.planned monitor.now (L.rules guard) seat.new }
        ensures view { seat_view seat.new ≡ wrote (seat_view seat.old) }
    {
        let op = value_op(guard.name());
        let number = self.taken + 1;
        let at = shadow_word(directory, addr);
        let word = read(monitor, seat, number, op, at);
        let after = word_after(guard, word, mask, width, addr);
        let put = put_of(monitor.block(), word, after);
        write(monitor, seat, number, op + 1, at, put);
    }

    // Makes the read and the write of the value of a store, where its page is mapped and stores change nibbles.
    fn store_value<P: Plan, L: Lifeguard>(
        &self,
        monitor: &Monitor<P>,
        seat: &mut GuardSeat,
        guard: L,
        width: StoreWidth,
        mask: u8,
        addr: u32,
        directory: u64,
    )
        requires at { IsAt P.planned monitor.now (L.rules guard) seat.old }
        requires next { let v = seat_view seat.old in (rv : ℕ) × (rb : ℕ)
            × IsNext (L.rules guard) v self.now (St width rv rb addr)
            × (mask ≡ masks_before (run_at (L.rules guard) v) v.hart (self.now.taken + 1) rv) }
        requires small { directory ≤ MAX_MAPPED_PAGES }
        requires directory { let v = seat_view seat.old in
            directory ≡ (before (run_at (L.rules guard) v) v.hart (self.now.taken + 1)).words (directory_of addr) }
        ensures at { IsAt P.planned monitor.now (L.rules guard) seat.new }
        ensures wrote { directory ≢ 0 → (L.rules guard).name ≢ name.Addr
            → seat_view seat.new ≡ wrote (seat_view seat.old) }
        ensures same { (directory ≡ 0) ⊎ ((L.rules guard).name ≡ name.Addr)
            → seat_view seat.new ≡ seat_view seat.old }
    {
        if directory != 0 && guard.name() != Name::Addr {
            self.put_stored(monitor, seat, guard, width, mask, addr, directory);
        }
    }

    /// Makes a store, up to its reports. No held load lies in its block when it writes.
    pub fn store<P: Plan, L: Lifeguard, K: Ledger>(
        &mut self,
        monitor: &Monitor<P>,
        seat: &mut GuardSeat,
        guard: L,
        width: StoreWidth,
        rv: u8,
        addr: u32,
        steps: &mut Steps<K>,
    ) -> Found
        requires at { IsAt P.planned monitor.now (L.rules guard) seat.old }
        requires next { (rb : ℕ) × IsNext (L.rules guard) (seat_view seat.old) self.old (St width rv rb addr) }
        ensures at { IsAt P.planned monitor.now (L.rules guard) seat.new }
        ensures view { HasWritten (seat_view seat.old) (seat_view seat.new) }
        ensures made { (rb : ℕ) → IsNext (L.rules guard) (seat_view seat.old) self.old (St width rv rb addr)
            → IsMade (L.rules guard) (seat_view seat.old) (seat_view seat.new) self.old self.new (St width rv rb addr)
            result }
        ensures steps { let v = seat_view seat.old in let p = run_at (L.rules guard) v in
            steps.new + steps_at p v.hart self.old.taken ≡ steps.old + steps_at p v.hart (self.old.taken + 1) }
    {
        let len = width.bytes();
        let directory = self.directory(monitor, seat, guard, addr);
        let mask = self.mask_of(monitor, seat, guard, rv);
        self.free_block(monitor, seat, guard, addr);
        let outcome = self.check(monitor, seat, guard, addr, len, directory, steps);
        self.store_value(monitor, seat, guard, width, mask, addr, directory);
        self.count(outcome, addr, len);
        self.keep_frame(addr, directory);
        Found::touched(outcome.bad())
    }
}
