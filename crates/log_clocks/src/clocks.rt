//! The clocks of all records so far.
ghost use Rattle.std.specs.Prelude.{◌≡◌, ◌↔◌, ℕ, suc, ◌+◌, ◌^◌, ◌<◌, ◌≤◌, [], ◌∷◌, ◌++◌, List, length, take, IsTrue, false, IfOk, OnErr, OnOk, slice_index, slice_index_or};
ghost use Rattle.pl_event.specs.declared.log.Line.{Line};
ghost use Rattle.pl_event.specs.Edges.{IsFlow, Into, no_arcs};
ghost use Rattle.pl_event.specs.Graph.{IsClock};
ghost use Rattle.pl_event.specs.Heads.{IsNext};
ghost use Rattle.pl_event.specs.Needs.{needs_of};
ghost use Rattle.pl_event.specs.Records.{records_before};

use crate::clock::Clock;
use pl_base::NoMemory;
use pl_event::Arcs;
use std::alloc::{AllocError, Global};

/// The clock of each record so far, by its hart and number.
#[derive(Drop)]
pub struct Clocks {
    // which clock each record of a hart has
    slots: Vec<Vec<u32>>,
    kept: Vec<Clock>,
    ghost eight: { length slots.items ≡ 8 },
}

impl Clocks {
    ghost use Rattle.log_clocks.specs.Clocks.{time, slots, kept_at, slot_of, known, HasClocks, HasSameClocks};
    ghost use Rattle.log_clocks.specs.inner.Joins.{IsJoin, IsClosed};

    /// Of no record.
    pub fn new(alloc: Global) -> Result<Clocks, NoMemory>
        ensures { IfOk result (λ clocks. (harts : ℕ) (lines : List Line) → IsFlow harts lines →
            HasClocks clocks lines 0) }
    {
        let mut slots = Vec::new(alloc);
        for _hart in 0..8u8 {
            slots.push(Vec::new(alloc))?;
        }
        let mut kept = Vec::new(alloc);
        kept.push(Clock::zero())?;
        Ok(Clocks { slots, kept })
    }

    /// How many records a hart below 8 has so far.
    #[inline(always)]
    pub fn count(&self, hart: u8) -> usize
        requires { hart < 8 }
        ensures { result ≡ length (slots self.now hart) }
    {
        self.slots[hart as usize].len()
    }

    /// The clock of a record.
    pub fn of(&self, hart: u8, number: u32) -> Clock
        requires { hart < 8 }
        ensures { (u : ℕ) → time result u ≡ known self.now hart number u }
    {
        if number == 0 {
            return Clock::zero();
        }
        let mut clock = self.clock_in(self.slot(hart, number));
        clock.set(hart, number);
        clock
    }

    // Which clock a record has.
    #[inline(always)]
    fn slot(&self, hart: u8, number: u32) -> u32
        requires { hart < 8 }
        ensures { result ≡ slot_of self.now hart number }
    {
        let slots = &self.slots[hart as usize];
        let number = number as usize;
        if number == 0 || number > slots.len() {
            0
        } else {
            slots[number - 1]
        }
    }

    // The clock that is kept there.
    #[inline(always)]
    fn clock_in(&self, slot: u32) -> Clock
        ensures { (u : ℕ) → time result u ≡ time (kept_at self.now slot) u }
    {
        let slot = slot as usize;
        if slot < self.kept.len() {
            self.kept[slot]
        } else {
            Clock::zero()
        }
    }

    // The clock of a hart's last record, raised by those of the records that are needed, and whether one was. A record
    // that is known already has nothing new.
    fn joined(&self, clock: Clock, needs: &Arcs) -> (Clock, bool)
        ensures joined { IsClosed needs.now (known self.now) (time clock) →
            IsJoin needs.now 8 (known self.now) (time clock) (time result.0) }
        ensures same { result.1 ≡ false → result.0 ≡ clock }
    {
        let mut joined = clock;
        let mut is_raised = false;
        for u in 0..8u8 {
            if let Some(number) = needs.get(u) {
                if joined.get(u) < number {
                    joined.raise(&self.of(u, number));
                    is_raised = true;
                }
            }
        }
        (joined, is_raised)
    }

    // How many clocks are kept.
    fn clocks(&self) -> usize
        ensures { result ≡ length self.now.kept.items }
    {
        self.kept.len()
    }

    // Keeps a clock, and tells where.
    fn keep(&mut self, clock: Clock) -> Result<u32, NoMemory>
        ensures slots { self.new.slots ≡ self.old.slots }
        ensures err { OnErr result (self.new.kept.items ≡ self.old.kept.items) }
        ensures kept { IfOk result (λ slot. (slot ≡ length self.old.kept.items)
            × (self.new.kept.items ≡ self.old.kept.items ++ clock ∷ [])) }
    {
        let slot = self.kept.len();
        if slot >= u32::MAX as usize {
            return Err(NoMemory);
        }
        self.kept.push(clock)?;
        Ok(slot as u32)
    }

    // One more record of a hart.
    #[inline(always)]
    fn push(&mut self, hart: u8, slot: u32) -> Result<(), NoMemory>
        requires { hart < 8 }
        ensures kept { self.new.kept ≡ self.old.kept }
        ensures added { IfOk result (λ _. slots self.new hart ≡ slots self.old hart ++ slot ∷ []) }
        ensures err { OnErr result (slots self.new hart ≡ slots self.old hart) }
        ensures others { (u : ℕ) → (u ≡ hart → ⊥) → slots self.new u ≡ slots self.old u }
    {
        self.slots[hart as usize].push(slot)?;
        Ok(())
    }

    // The same. Without memory only the first `count` clocks are kept.
    #[inline(always)]
    fn add(&mut self, hart: u8, slot: u32, count: usize) -> Result<(), NoMemory>
        requires { hart < 8 }
        ensures kept { OnOk result (self.new.kept ≡ self.old.kept) }
        ensures added { OnOk result (slots self.new hart ≡ slots self.old hart ++ slot ∷ []) }
        ensures others { OnOk result ((u : ℕ) → (u ≡ hart → ⊥) → slots self.new u ≡ slots self.old u) }
        ensures err { OnErr result ((self.new.kept.items ≡ take count self.old.kept.items)
            × ((u : ℕ) → slots self.new u ≡ slots self.old u)) }
    {
        if let Err(NoMemory) = self.push(hart, slot) {
            self.kept.truncate(count);
            return Err(NoMemory);
        }
        Ok(())
    }

    // The number that a clock that is kept has for hart u.
    #[inline(always)]
    fn entry_in(&self, slot: u32, u: u8) -> u32
        requires { u < 8 }
        ensures { result ≡ time (kept_at self.now slot) u }
    {
        self.clock_in(slot).get(u)
    }

    // The number that the clock of a record has for hart u.
    #[inline(always)]
    fn entry(&self, hart: u8, number: u32, u: u8) -> u32
        requires hart { hart < 8 }
        requires u { u < 8 }
        ensures { result ≡ known self.now hart number u }
    {
        if number == 0 {
            return 0;
        }
        if u == hart {
            return number;
        }
        self.entry_in(self.slot(hart, number), u)
    }

    /// Whether the clock of the next record, of this hart, knows the record of another hart u with this number, where
    /// the next record needs these records of other harts. A clock of another hart is looked at only for a record that
    /// the hart's last record does not know.
    pub fn next_knows(&self, hart: u8, needs: &Arcs, u: u8, number: u32) -> bool
        requires hart { hart < 8 }
        requires u { u < 8 }
        requires other { u ≡ hart → ⊥ }
        requires few { length (slots self.now hart) + 1 < 2 ^ 32 }
        ensures { (harts : ℕ) (lines : List Line) (i : ℕ) (line : Line) →
            IsFlow harts lines → harts ≤ 8 → HasClocks self.now lines i → IsNext lines i hart line →
            needs.now ≡ needs_of lines hart (records_before hart lines i + 1) →
            (clock : ℕ → ℕ) × IsClock (Into lines) hart (records_before hart lines i + 1) clock
            × (IsTrue result ↔ number ≤ clock u) }
    {
        let last = self.of(hart, self.count(hart) as u32);
        if last.get(u) >= number {
            return true;
        }
        for w in 0..8u8 {
            if let Some(needed) = needs.get(w) {
                if last.get(w) < needed && self.entry(w, needed, u) >= number {
                    return true;
                }
            }
        }
        false
    }

    /// The number that the clock of a hart's last record has for hart u.
    #[inline(always)]
    pub fn last_entry(&self, hart: u8, u: u8) -> u32
        requires hart { hart < 8 }
        requires u { u < 8 }
        requires few { length (slots self.now hart) < 2 ^ 32 }
        ensures { result ≡ known self.now hart (length (slots self.now hart)) u }
    {
        self.entry(hart, self.count(hart) as u32, u)
    }

    /// Takes the next record, of this hart, which needs no record of another hart, and gives its clock.
    /// Without memory the clocks stay as they were.
    #[inline(always)]
    pub fn next_alone(&mut self, hart: u8) -> Result<Clock, NoMemory>
        requires hart { hart < 8 }
        requires few { length (slots self.old hart) + 1 < 2 ^ 32 }
        ensures ok { (harts : ℕ) (lines : List Line) (i : ℕ) (line : Line) →
            IsFlow harts lines → harts ≤ 8 → HasClocks self.old lines i → IsNext lines i hart line →
            no_arcs ≡ needs_of lines hart (records_before hart lines i + 1) →
            IfOk result (λ clock. IsClock (Into lines) hart (records_before hart lines i + 1) (time clock)
            × HasClocks self.new lines (i + 1) × (time clock hart ≡ records_before hart lines i + 1)) }
        ensures err { OnErr result (HasSameClocks self.old self.new) }
    {
        let number = self.count(hart) as u32;
        let last = self.slot(hart, number);
        let mut clock = self.clock_in(last);
        clock.set(hart, number + 1);
        let count = self.clocks();
        self.add(hart, last, count)?;
        Ok(clock)
    }

    /// Takes the next record, of this hart, which needs these records of other harts, and gives its clock. Without
    /// memory the clocks stay as they were.
    pub fn next(&mut self, hart: u8, needs: &Arcs) -> Result<Clock, NoMemory>
        requires hart { hart < 8 }
        requires few { length (slots self.old hart) + 1 < 2 ^ 32 }
        ensures ok { (harts : ℕ) (lines : List Line) (i : ℕ) (line : Line) →
            IsFlow harts lines → harts ≤ 8 → HasClocks self.old lines i → IsNext lines i hart line →
            needs.now ≡ needs_of lines hart (records_before hart lines i + 1) →
            IfOk result (λ clock. IsClock (Into lines) hart (records_before hart lines i + 1) (time clock)
            × HasClocks self.new lines (i + 1) × (time clock hart ≡ records_before hart lines i + 1)) }
        ensures err { OnErr result (HasSameClocks self.old self.new) }
    {
        let number = self.count(hart) as u32;
        let last = self.slot(hart, number);
        let count = self.clocks();
        let (mut clock, is_raised) = self.joined(self.of(hart, number), needs);
        clock.set(hart, number + 1);
        let slot = if is_raised { self.keep(clock)? } else { last };
        self.add(hart, slot, count)?;
        Ok(clock)
    }
}
