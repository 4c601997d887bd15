//! The checks of accesses, and the frames of their pages.
ghost use Rattle.std.specs.Prelude.{◌≡◌, ◌≢◌, ℕ, ◌+◌, ◌^◌, ◌<◌, ◌≤◌, ◌==◌, not};
ghost use Rattle.pl_base.specs.declared.layout.TheConstants.{MAX_MAPPED_PAGES, MEMORY_BYTES};
ghost use Rattle.lifeguard.specs.declared.guard.Name.TheVariants as name;
ghost use Rattle.guard_table.specs.Seats.{seat_view};
ghost use Rattle.worker_laws.specs.Folds.{failed, one_if, steps_at};
ghost use Rattle.worker_laws.specs.Reads.{directory_of};
ghost use Rattle.worker_laws.specs.Runs.{before};
ghost use Rattle.worker_records.specs.Places.{IsAt, run_at};
ghost use Rattle.worker_records.specs.States.{IsReady, parts_of};
ghost use Rattle.worker_records.specs.Checks.{NextReaches, check_of, counted, IsOutcome, kept_frame};
ghost use Rattle.worker_records.specs.Checks as checks;

use crate::state::State;
use crate::steps::{check_read, read};
use crate::words::{directory_word, first_bad, shadow_word};
use guard_table::{GuardSeat, Monitor};
use lifeguard::{Lifeguard, Name};
use order_core::Plan;
use pl_base::Steps;
use pl_base::layout::PAGE_BYTES;
use std::sync::ledger::Ledger;

/// How the check of an access ended.
#[derive(Clone, Copy)]
pub enum Outcome {
    /// The lifeguard checks no accesses.
    Unchecked,
    /// The same check passed before.
    Passed,
    /// The check was made, and this is the first byte that fails it.
    Made { bad: Option<u32> },
}

impl Outcome {
    /// The first byte that fails the check.
    pub fn bad(self) -> Option<u32>
        ensures { result ≡ checks.bad_of self }
    {
        match self {
            Outcome::Unchecked | Outcome::Passed => None,
            Outcome::Made { bad } => bad,
        }
    }
}

impl State {
    /// The directory's word of the page that the next record reaches: 0, or the number of its frame plus 1.
    pub fn directory<P: Plan, L: Lifeguard>(
        &self,
        monitor: &Monitor<P>,
        seat: &mut GuardSeat,
        guard: L,
        addr: u32,
    ) -> u64
        requires at { IsAt P.planned monitor.now (L.rules guard) seat.old }
        requires ready { IsReady (L.rules guard) (seat_view seat.old) self.now }
        requires reach { (len : ℕ) × NextReaches (L.rules guard) (seat_view seat.old) self.now (check_of addr len) }
        ensures at { IsAt P.planned monitor.now (L.rules guard) seat.new }
        ensures view { seat_view seat.new ≡ seat_view seat.old }
        ensures value { let v = seat_view seat.old in
            result ≡ (before (run_at (L.rules guard) v) v.hart (self.now.taken + 1)).words (directory_of addr) }
        ensures small { result ≤ MAX_MAPPED_PAGES }
    {
        match self.look.find((addr / PAGE_BYTES) as u16) {
            Some(frame) => u64::from(frame) + 1,
            None => read(monitor, seat, self.taken + 1, 0, directory_word(addr)),
        }
    }

    /// Makes the check of the next record, which the filter does not hold.
    fn make_check<P: Plan, L: Lifeguard, K: Ledger>(
        &self,
        monitor: &Monitor<P>,
        seat: &mut GuardSeat,
        guard: L,
        addr: u32,
        len: u8,
        directory: u64,
        steps: &mut Steps<K>,
    ) -> Option<u32>
        requires at { IsAt P.planned monitor.now (L.rules guard) seat.old }
        requires ready { IsReady (L.rules guard) (seat_view seat.old) self.now }
        requires reach { NextReaches (L.rules guard) (seat_view seat.old) self.now (check_of addr len) }
        requires checks { (L.rules guard).name ≢ name.Taint }
        requires directory { let v = seat_view seat.old in
            directory ≡ (before (run_at (L.rules guard) v) v.hart (self.now.taken + 1)).words (directory_of addr) }
        ensures at { IsAt P.planned monitor.now (L.rules guard) seat.new }
        ensures view { seat_view seat.new ≡ seat_view seat.old }
        ensures bad { let v = seat_view seat.old in
            result ≡ failed (L.rules guard) (before (run_at (L.rules guard) v) v.hart (self.now.taken + 1))
            (check_of addr len) }
        ensures steps { steps.new ≡ steps.old + one_if (not (directory == 0)) }
    {
        if directory == 0 {
            return Some(addr);
        }
        let word = check_read(
            monitor,
            seat,
            self.taken + 1,
            1,
            shadow_word(directory, addr),
            steps,
        );
        first_bad(guard, word, addr, len)
    }

    /// The check of the next record.
    pub fn check<P: Plan, L: Lifeguard, K: Ledger>(
        &self,
        monitor: &Monitor<P>,
        seat: &mut GuardSeat,
        guard: L,
        addr: u32,
        len: u8,
        directory: u64,
        steps: &mut Steps<K>,
    ) -> Outcome
        requires at { IsAt P.planned monitor.now (L.rules guard) seat.old }
        requires ready { IsReady (L.rules guard) (seat_view seat.old) self.now }
        requires reach { NextReaches (L.rules guard) (seat_view seat.old) self.now (check_of addr len) }
        requires directory { let v = seat_view seat.old in
            directory ≡ (before (run_at (L.rules guard) v) v.hart (self.now.taken + 1)).words (directory_of addr) }
        ensures at { IsAt P.planned monitor.now (L.rules guard) seat.new }
        ensures view { seat_view seat.new ≡ seat_view seat.old }
        ensures outcome { IsOutcome (L.rules guard) (seat_view seat.old) self.now (check_of addr len) result }
        ensures steps { let v = seat_view seat.old in let p = run_at (L.rules guard) v in
            steps.new + steps_at p v.hart self.now.taken ≡ steps.old + steps_at p v.hart (self.now.taken + 1) }
    {
        match guard.name() {
            Name::Taint => Outcome::Unchecked,
            Name::Addr | Name::Mem => {
                if self.filter.hit(addr, len) {
                    Outcome::Passed
                } else {
                    let bad = self.make_check(monitor, seat, guard, addr, len, directory, steps);
                    Outcome::Made { bad }
                }
            }
        }
    }

    /// Counts a check, and enters it where it was made and passed.
    pub fn count(&mut self, outcome: Outcome, addr: u32, len: u8)
        requires checks { self.old.checks + 1 < 2 ^ 64 }
        requires misses { self.old.misses + 1 < 2 ^ 64 }
        ensures parts { parts_of self.new ≡ counted outcome (check_of addr len) (parts_of self.old) }
        ensures others { self.new ≡ record self.old {
          filter = self.new.filter;
          checks = self.new.checks;
          misses = self.new.misses;
        } }
    {
        match outcome {
            Outcome::Unchecked => {}
            Outcome::Passed => self.checks += 1,
            Outcome::Made { bad } => {
                self.checks += 1;
                self.misses += 1;
                if bad.is_none() {
                    self.filter.enter(addr, len);
                }
            }
        }
    }

    /// Enters a page's directory word into the look-aside, where it has a frame.
    pub fn keep_frame(&mut self, addr: u32, directory: u64)
        requires near { addr < MEMORY_BYTES }
        requires small { directory ≤ MAX_MAPPED_PAGES }
        ensures look { self.new.look ≡ kept_frame self.old.look addr directory }
        ensures others { self.new ≡ record self.old { look = self.new.look } }
    {
        if directory != 0 {
            self.look
                .enter((addr / PAGE_BYTES) as u16, (directory - 1) as u16);
        }
    }
}
