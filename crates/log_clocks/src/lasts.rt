//! The last load and the last store of each hart in each block.
ghost use Rattle.std.specs.Prelude.{◌≡◌, ℕ, ◌+◌, ◌/◌, ◌<◌, ◌≤◌, List, length, Bool, IfOk, OnErr, IsTrue, None, false, slice_index, slice_index_or, slice_set};
ghost use Rattle.pl_base.specs.declared.layout.TheConstants.{MEMORY_BYTES};
ghost use Rattle.pl_event.specs.declared.log.Line.{Line};
ghost use Rattle.pl_event.specs.Candidates.{Shares};
ghost use Rattle.pl_event.specs.Needs.{IsMost};
ghost use Rattle.pl_event.specs.Numbers.{hart_of};
ghost use Rattle.pl_event.specs.Records.{IsEvent, IsRecord};
ghost use Rattle.pl_event.specs.Runs.{IsBlockSize, IsSoundLine};
ghost use Rattle.pl_event.specs.Valid.{IsValidEvent};
ghost use Rattle.log_clocks.specs.Clocks.{time};
ghost use Rattle.pl_event.specs.Edges.{some_number};
ghost use Rattle.log_clocks.specs.inner.Rows.{in_row, row_at, zero_row, newest, IsIndexed};

use crate::clock::Clock;
use pl_base::NoMemory;
use pl_base::layout::MEMORY_BYTES;
use pl_event::{Arcs, Event, Kind, Line, Record, some_number};
use std::alloc::Global;

/// Of one block the number of each hart's last load and of its last store, or 0.
#[derive(Clone, Copy)]
pub struct Row {
    loads: [u32; 8],
    stores: [u32; 8],
}

impl Row {
    fn zero() -> Row
        ensures { result ≡ zero_row }
    {
        Row {
            loads: [0; 8],
            stores: [0; 8],
        }
    }

    #[inline(always)]
    fn set(&mut self, store: bool, hart: u8, number: u32)
        requires { hart < 8 }
        ensures here { in_row self.new store hart ≡ number }
        ensures others { (other : Bool) (u : ℕ) → ((other ≡ store) × (u ≡ hart) → ⊥) →
            in_row self.new other u ≡ in_row self.old other u }
    {
        if store {
            self.stores[hart as usize] = number;
        } else {
            self.loads[hart as usize] = number;
        }
    }

    // The last access of a hart that a store conflicts with, or a load; 0 for none.
    #[inline(always)]
    fn newest(&self, store: bool, hart: u8) -> u32
        requires { hart < 8 }
        ensures { result ≡ newest self.now store hart }
    {
        let stored = self.stores[hart as usize];
        if store {
            stored.max(self.loads[hart as usize])
        } else {
            stored
        }
    }

    // Whether a clock knows the last access of a hart that conflicts, if it is another hart.
    #[inline(always)]
    fn knows(&self, store: bool, hart: u8, u: u8, clock: &Clock) -> bool
        requires { u < 8 }
        ensures yes { IsTrue result → (u ≡ hart → ⊥) → newest self.now store u ≤ time clock.now u }
        ensures no { result ≡ false → (u ≡ hart → ⊥) × (time clock.now u < newest self.now store u) }
    {
        (u == hart) | (self.newest(store, u) <= clock.get(u))
    }

    // Whether a clock knows the last access of each other hart that conflicts.
    #[inline(always)]
    fn is_known(&self, store: bool, hart: u8, clock: &Clock) -> bool
        ensures yes { IsTrue result → (u : ℕ) → u < 8 → (u ≡ hart → ⊥) → newest self.now store u ≤ time clock.now u }
        ensures no { result ≡ false → (u : ℕ) × (u < 8) × (u ≡ hart → ⊥)
            × (time clock.now u < newest self.now store u) }
    {
        let mut known = true;
        for u in 0..8u8 {
            known &= self.knows(store, hart, u, clock);
        }
        known
    }

    // For each other hart the last access that conflicts.
    fn conflicting(&self, store: bool, hart: u8) -> Arcs
        ensures own { slice_index_or result hart None ≡ None }
        ensures others { (u : ℕ) → u < 8 → (u ≡ hart → ⊥) →
            slice_index_or result u None ≡ some_number (newest self.now store u) }
    {
        let mut found = Arcs::none();
        for u in 0..8u8 {
            if u != hart {
                found.set(u, some_number(self.newest(store, u)));
            }
        }
        found
    }
}

/// For each block that occurs the number of each hart's last load and of its last store so far.
#[derive(Drop)]
pub struct LastAccesses {
    size: u8,
    // which row each block has: the first one, of no access, until it occurs
    index: Vec<u32>,
    rows: Vec<Row>,
    ghost sized: { ∥ IsBlockSize size ∥₁ },
    ghost wide: { length index.items ≡ MEMORY_BYTES / size },
}

impl LastAccesses {
    ghost use Rattle.log_clocks.specs.LastAccesses.{last, HasLast, HasSameTable, KnowsShared};

    /// Of no line, for blocks of 16 or 4 bytes.
    pub fn new(alloc: Global, size: u8) -> Result<LastAccesses, NoMemory>
        requires { IsBlockSize size }
        ensures { IfOk result (λ lasts. (lines : List Line) → HasLast lasts size lines 0) }
    {
        let blocks = MEMORY_BYTES / u32::from(size);
        let index = vec![in alloc; 0; blocks as usize]?;
        let mut rows = Vec::new(alloc);
        rows.push(Row::zero())?;
        Ok(LastAccesses { size, index, rows })
    }

    // The row of a block.
    #[inline]
    fn row(&self, block: u32) -> Row
        requires { block < length self.now.index.items }
        ensures { result ≡ row_at self.now.index.items self.now.rows.items block }
    {
        let slot = self.slot(block);
        if slot < self.count() {
            self.row_in(slot)
        } else {
            Row::zero()
        }
    }

    #[inline(always)]
    fn slot(&self, block: u32) -> usize
        requires { block < length self.now.index.items }
        ensures { result ≡ slice_index self.now.index.items block }
    {
        self.index[block as usize] as usize
    }

    #[inline]
    fn row_in(&self, slot: usize) -> Row
        requires { slot < length self.now.rows.items }
        ensures { result ≡ slice_index_or self.now.rows.items slot zero_row }
    {
        self.rows[slot]
    }

    // Whether a clock knows the last access in a block of each other hart that conflicts.
    #[inline(always)]
    fn is_known(&self, block: u32, store: bool, hart: u8, clock: &Clock) -> bool
        requires { block < length self.now.index.items }
        ensures yes { IsTrue result → (u : ℕ) → u < 8 → (u ≡ hart → ⊥) →
            newest (row_at self.now.index.items self.now.rows.items block) store u ≤ time clock.now u }
        ensures no { result ≡ false → (u : ℕ) × (u < 8) × (u ≡ hart → ⊥)
            × (time clock.now u < newest (row_at self.now.index.items self.now.rows.items block) store u) }
    {
        match self.rows.get(self.slot(block)) {
            Some(row) => row.is_known(store, hart, clock),
            None => true,
        }
    }

    // How many rows there are.
    #[inline]
    fn count(&self) -> usize
        ensures { result ≡ length self.now.rows.items }
    {
        self.rows.len()
    }

    // Where the block's own row is, which is made if there is none.
    #[inline(always)]
    fn own_row(&mut self, block: u32) -> Result<usize, NoMemory>
        requires { block < length self.old.index.items }
        ensures size { self.new.size ≡ self.old.size }
        ensures within { IfOk result (λ slot. slot < length self.new.rows.items) }
        ensures own { IsIndexed self.old.index.items self.old.rows.items → IfOk result (λ slot.
            IsIndexed self.new.index.items self.new.rows.items × (slice_index self.new.index.items block ≡ slot)
            × (1 ≤ slot)
            × ((b : ℕ) → row_at self.new.index.items self.new.rows.items b
            ≡ row_at self.old.index.items self.old.rows.items b)) }
        ensures err { OnErr result (HasSameTable self.old self.new) }
    {
        let slot = self.slot(block);
        let count = self.count();
        if slot != 0 && slot < count {
            return Ok(slot);
        }
        if count >= u32::MAX as usize {
            return Err(NoMemory);
        }
        self.rows.push(Row::zero())?;
        self.index[block as usize] = count as u32;
        Ok(count)
    }

    #[inline(always)]
    fn note(&mut self, block: u32, store: bool, hart: u8, number: u32) -> Result<(), NoMemory>
        requires block { block < length self.old.index.items }
        requires hart { hart < 8 }
        ensures size { self.new.size ≡ self.old.size }
        ensures noted { IsIndexed self.old.index.items self.old.rows.items → IfOk result (λ _.
            IsIndexed self.new.index.items self.new.rows.items × (last self.new block store hart ≡ number)
            × ((b : ℕ) (s : Bool) (u : ℕ) → ((b ≡ block) × (s ≡ store) × (u ≡ hart) → ⊥) →
            last self.new b s u ≡ last self.old b s u)) }
        ensures err { OnErr result (HasSameTable self.old self.new) }
    {
        let slot = self.own_row(block)?;
        self.rows[slot].set(store, hart, number);
        Ok(())
    }

    // The block of an address.
    #[inline(always)]
    fn block(&self, addr: u32) -> u32
        requires { addr < MEMORY_BYTES }
        ensures block { result ≡ addr / self.now.size }
        ensures within { result < length self.now.index.items }
    {
        if self.size == 16 { addr / 16 } else { addr / 4 }
    }

    /// Takes the next line, which is record `number` of its hart. Without memory the table stays as it was.
    #[inline(always)]
    pub fn pass(&mut self, line: &Line, number: u32) -> Result<(), NoMemory>
        requires { IsSoundLine 8 line.now }
        ensures ok { (size : ℕ) (lines : List Line) (i : ℕ) → HasLast self.old size lines i →
            IsRecord lines i (hart_of line.now.what) number line.now →
            IfOk result (λ _. HasLast self.new size lines (i + 1)) }
        ensures err { OnErr result (HasSameTable self.old self.new) }
    {
        match line.what {
            Record::Event(event) => self.take(&event, number),
            Record::Notice { hart: _, of: _ } => Ok(()),
        }
    }

    #[inline(always)]
    fn take(&mut self, event: &Event, number: u32) -> Result<(), NoMemory>
        requires { IsValidEvent event.now 8 }
        ensures ok { (size : ℕ) (lines : List Line) (i : ℕ) → HasLast self.old size lines i →
            IsEvent lines i number event.now → IfOk result (λ _. HasLast self.new size lines (i + 1)) }
        ensures err { OnErr result (HasSameTable self.old self.new) }
    {
        match event.kind {
            Kind::Ld {
                width: _,
                rd: _,
                rb: _,
                addr,
            } => self.note(self.block(addr), false, event.hart, number),
            Kind::St {
                width: _,
                rv: _,
                rb: _,
                addr,
            } => self.note(self.block(addr), true, event.hart, number),
            _ => Ok(()),
        }
    }

    /// For each other hart its last record so far that conflicts with the next event by a block.
    pub fn candidates(&self, event: &Event) -> Arcs
        requires { IsValidEvent event.now 8 }
        ensures { (size : ℕ) (lines : List Line) (i m : ℕ) → HasLast self.now size lines i →
            IsEvent lines i m event.now →
            (u : ℕ) → u < 8 → IsMost (λ k. Shares size lines u k event.now.hart m) (slice_index_or result u None) }
    {
        match event.kind {
            Kind::Ld {
                width: _,
                rd: _,
                rb: _,
                addr,
            } => self.row(self.block(addr)).conflicting(false, event.hart),
            Kind::St {
                width: _,
                rv: _,
                rb: _,
                addr,
            } => self.row(self.block(addr)).conflicting(true, event.hart),
            _ => Arcs::none(),
        }
    }

    /// Whether a clock knows each record of another hart so far that conflicts with the next event by a block.
    #[inline(always)]
    pub fn are_known(&self, event: &Event, clock: &Clock) -> bool
        requires { IsValidEvent event.now 8 }
        ensures yes { (size : ℕ) (lines : List Line) (i m : ℕ) → HasLast self.now size lines i →
            IsEvent lines i m event.now →
            IsTrue result → KnowsShared size lines event.now m clock.now }
        ensures no { (size : ℕ) (lines : List Line) (i m : ℕ) → HasLast self.now size lines i →
            IsEvent lines i m event.now →
            result ≡ false → KnowsShared size lines event.now m clock.now → ⊥ }
    {
        match event.kind {
            Kind::Ld {
                width: _,
                rd: _,
                rb: _,
                addr,
            } => self.is_known(self.block(addr), false, event.hart, clock),
            Kind::St {
                width: _,
                rv: _,
                rb: _,
                addr,
            } => self.is_known(self.block(addr), true, event.hart, clock),
            _ => true,
        }
    }
}
