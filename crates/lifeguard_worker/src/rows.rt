//! What a worker keeps of the records that it is fed.
ghost use Rattle.std.specs.Prelude.{◌≡◌, ◌+◌, ◌<◌, ℕ, List, Option, IsTrue, length};
ghost use Rattle.pl_event.specs.Edges.{no_arcs};
ghost use Rattle.lifeguard_worker.specs.Rows.{entry_of, item_of, needs_in};

use pl_event::{Arcs, Fed, Record, next_slot};
use std::alloc::{AllocError, Global};
use std::marker::Model;

/// A record as it is taken: with its place and its event number, both 0 for a notice.
#[derive(Clone, Copy)]
pub struct Entry {
    pub(crate) what: Record,
    pub(crate) place: u32,
    pub(crate) event_number: u32,
}

/// A record in 32 bytes, with the slot of its needs.
#[derive(Clone, Copy)]
pub struct Row {
    entry: Entry,
    slot: u32,
}

/// Records as a worker takes them, in order, each with what it needs of other harts.
///
/// The needs of the records that have any are kept apart: those of slot `k`, from 1, are item `k - 1` of their list.
/// Slot 0 is of a record that needs nothing.
#[derive(Drop)]
pub struct Rows {
    rows: Vec<Row>,
    needs: Vec<Arcs>,
}

impl Model for Rows {
    ghost use Rattle.std.specs.Prelude.{List};
    ghost use Rattle.lifeguard_worker.specs.Rows.{Item, items_in, AreNeeded};

    ghost Value = { List Item };

    ghost view = { λ r. items_in r.needs.items r.rows.items };

    ghost invariant = { λ r. AreNeeded r.needs.items r.rows.items };
}

// Whether these are no needs.
fn is_nothing(needs: &Arcs) -> bool
    ensures { IsTrue result → needs.now ≡ no_arcs }
{
    *needs == Arcs::none()
}

impl Rows {
    ghost use Rattle.std.specs.Prelude.{[], ◌∷◌, ◌++◌, OnOk, OnErr, Some, slice_get};
    ghost use Rattle.lifeguard_worker.specs.declared.rows.Entry.{Entry};

    /// No record. No memory is taken.
    pub(crate) fn new(alloc: Global) -> Rows
        ensures { result ≡ [] }
    {
        Rows {
            rows: Vec::new(alloc),
            needs: Vec::new(alloc),
        }
    }

    /// Forgets all records, and keeps their room.
    pub(crate) fn clear(&mut self)
        ensures { self.new ≡ [] }
    {
        self.rows.clear();
        self.needs.clear();
    }

    /// How many there are.
    #[inline]
    pub(crate) fn len(&self) -> usize
        ensures { result ≡ length self.now }
    {
        self.rows.len()
    }

    /// Record `i`, counted from 0.
    #[inline]
    pub(crate) fn get(&self, i: usize) -> Entry
        requires { i < length self.now }
        ensures { (needs : List (Option ℕ)) × (slice_get self.now i ≡ Some (record { entry = result; needs = needs })) }
    {
        self.rows[i].entry
    }

    /// What record `i`, counted from 0, needs of other harts, where it needs something.
    #[inline]
    pub(crate) fn needs(&self, i: usize) -> Option<Arcs>
        requires { i < length self.now }
        ensures { (entry : Entry) × (slice_get self.now i ≡ Some (record { entry = entry; needs = needs_in result })) }
    {
        let slot = self.rows[i].slot;
        if slot == 0 {
            None
        } else {
            Some(self.needs[slot as usize - 1])
        }
    }

    /// One more record at the end. Without memory the records stay, and where 2^32 - 1 records need something.
    pub(crate) fn push(&mut self, fed: &Fed) -> Result<(), AllocError>
        ensures ok { OnOk result (self.new ≡ self.old ++ item_of fed.now ∷ []) }
        ensures err { OnErr result (self.new ≡ self.old) }
    {
        let entry = Entry {
            what: fed.line.what,
            place: fed.place,
            event_number: fed.event_number,
        };
        if is_nothing(&fed.needs) {
            self.push_free(entry)
        } else {
            self.push_needing(entry, fed.needs)
        }
    }

    fn push_free(&mut self, entry: Entry) -> Result<(), AllocError>
        ensures ok { OnOk result (self.new ≡ self.old ++ record { entry = entry; needs = no_arcs } ∷ []) }
        ensures err { OnErr result (self.new ≡ self.old) }
    {
        self.rows.push(Row { entry, slot: 0 })?;
        Ok(())
    }

    fn push_needing(&mut self, entry: Entry, needs: Arcs) -> Result<(), AllocError>
        ensures ok { OnOk result (self.new ≡ self.old ++ record { entry = entry; needs = needs } ∷ []) }
        ensures err { OnErr result (self.new ≡ self.old) }
    {
        let Some(slot) = next_slot(self.needs.len()) else {
            return Err(AllocError);
        };
        self.rows.reserve(1)?;
        self.needs.push(needs)?;
        self.rows.push(Row { entry, slot })?;
        Ok(())
    }
}
