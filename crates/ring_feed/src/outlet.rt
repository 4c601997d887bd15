//! The end of a ring at the feeder.
ghost use Rattle.std.specs.Prelude.{◌≡◌, ◌<◌, ◌≤◌, ◌^◌, ℕ, nat_lt, true, false, [], ◌∷◌, List, length, IfOk};
ghost use Rattle.pl_base.specs.declared.layout.TheConstants.{CHUNK_RECORDS};
ghost use Rattle.pl_event.specs.declared.fed.Fed.{Fed};
ghost use Rattle.pl_event.specs.Feeds.{feds};
ghost use Rattle.pl_event.specs.Numbers.{hart_of};
ghost use Rattle.stream_ring.specs.Passes.{IsSendOf, offered};
ghost use Rattle.ring_feed.specs.Outlets.{IsOutlet, IsTried, Keeps};

use pl_base::NoMemory;
use pl_base::layout::CHUNK_RECORDS;
use pl_event::Fed;
use std::alloc::Global;
use std::mem;
use std::sync::Wait;
use stream_ring::{Chunk, Ring, RunName, SendPass};

/// The end of a ring at the feeder: what it has offered, and the records that are not offered yet.
#[derive(Drop)]
pub struct Outlet<'a, N: RunName> {
    ring: &'a Ring<N>,
    pass: SendPass<N>,
    // A chunk to be: less than 64 records, or 64 where the ring was full.
    part: Vec<Fed>,
    // How many records were offered.
    count: u64,
}

impl<'a, N: RunName> Outlet<'a, N> {
    /// The outlet of a ring to which nothing was offered.
    pub fn new(alloc: Global, ring: &'a Ring<N>, pass: SendPass<N>) -> Outlet<'a, N>
        requires of { IsSendOf ring.now pass }
        requires fresh { offered pass ≡ [] }
        ensures ring { result.ring.now ≡ ring.now }
        ensures outlet { IsOutlet N.log (feds N.log.lines) ring.now.hart result }
    {
        Outlet {
            ring,
            pass,
            part: Vec::new(alloc),
            count: 0,
        }
    }

    /// How many records were offered.
    pub fn count(&self) -> u64
        ensures { result ≡ self.now.count }
    {
        self.count
    }

    /// Offers the part, if it has a record. Is nothing left in it?
    pub fn offer<R: Wait>(&mut self, rt: &R, alloc: Global) -> bool
        requires few { length N.log.lines < 2 ^ 32 }
        requires outlet { (rest : List Fed) × (k : ℕ) × IsOutlet N.log rest k self.old }
        ensures ring { self.new.ring.now ≡ self.old.ring.now }
        ensures keeps { Keeps N.log self.old self.new }
        ensures tried { IsTried self.new }
        ensures none { result ≡ true → self.new.part.items ≡ [] }
        ensures left { result ≡ false → 1 ≤ length self.new.part.items }
    {
        if self.part.is_empty() {
            return true;
        }
        let size = self.part.len() as u64;
        let chunk = Chunk::of(mem::replace(&mut self.part, Vec::new(alloc)));
        match self.ring.offer(rt, &mut self.pass, chunk) {
            Ok(()) => {
                self.count += size;
                true
            }
            Err(chunk) => {
                self.part = chunk.into_list();
                false
            }
        }
    }

    /// Has the part room for a record?
    pub fn has_room(&self) -> bool
        ensures { result ≡ nat_lt (length self.now.part.items) CHUNK_RECORDS }
    {
        self.part.len() < CHUNK_RECORDS
    }

    /// Appends a record of its hart to the part, and offers the part once it has 64. False: the ring was full.
    pub fn append<R: Wait>(&mut self, rt: &R, alloc: Global, fed: Fed) -> Result<bool, NoMemory>
        requires few { length N.log.lines < 2 ^ 32 }
        requires room { length self.old.part.items < CHUNK_RECORDS }
        requires outlet { (rest : List Fed) × IsOutlet N.log (fed ∷ rest) (hart_of fed.line.what) self.old }
        ensures ring { IfOk result (λ _. self.new.ring.now ≡ self.old.ring.now) }
        ensures outlet { let hart = hart_of fed.line.what in IfOk result (λ _. (rest : List Fed) →
            IsOutlet N.log (fed ∷ rest) hart self.old → IsOutlet N.log rest hart self.new) }
        ensures room { IfOk result (λ on. on ≡ true → length self.new.part.items < CHUNK_RECORDS) }
    {
        if self.part.is_empty() {
            self.part.reserve(CHUNK_RECORDS)?;
        }
        self.part.push(fed)?;
        if self.has_room() {
            return Ok(true);
        }
        Ok(self.offer(rt, alloc))
    }
}
