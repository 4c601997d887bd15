//! The lines of a log.
ghost use Rattle.std.specs.Prelude.{◌≡◌, ◌<◌, ◌≤◌, length};
ghost use Rattle.pl_event.specs.inner.Rows.{arcs_at};

use crate::log::{Arcs, Line, Record};
use crate::slots::next_slot;
use std::alloc::{AllocError, Global};
use std::marker::Model;

/// A record with the slot of its arcs, in 24 bytes. It is kept as it is read, since a shorter form costs more time than
/// its memory does.
#[derive(Clone, Copy)]
pub struct Row {
    what: Record,
    slot: u32,
}

/// Lines, in order.
///
/// Records lie side by side, and the arcs of the lines that have any are kept apart, so a line without takes 24 bytes.
#[derive(Drop)]
pub struct Lines {
    rows: Vec<Row>,
    arcs: Vec<Arcs>,
}

impl Model for Lines {
    ghost use Rattle.std.specs.Prelude.{List};
    ghost use Rattle.pl_event.specs.declared.log.Line.{Line};
    ghost use Rattle.pl_event.specs.inner.Rows.{lines_from, AreKept};

    ghost Value = { List Line };

    ghost view = { λ lines. lines_from lines.arcs.items lines.rows.items };

    ghost invariant = { λ lines. AreKept lines.arcs.items lines.rows.items };
}

/// The arcs of a slot.
#[inline]
fn arcs_of(arcs: &[Arcs], slot: u32) -> Arcs
    requires { slot ≤ length arcs.now }
    ensures { result ≡ arcs_at arcs.now slot }
{
    if slot == 0 {
        Arcs::none()
    } else {
        arcs[slot as usize - 1]
    }
}

impl Lines {
    ghost use Rattle.std.specs.Prelude.{[], ◌∷◌, ◌++◌, OnOk, OnErr, Some, IfSome, IsTrue, ◌↔◌, slice_get, slice_index_or};
    ghost use Rattle.pl_event.specs.Edges.{no_arcs};
    ghost use Rattle.pl_event.specs.declared.log.Line.{Line};

    /// No line. No memory is taken.
    pub fn new(alloc: Global) -> Lines
        ensures { result ≡ [] }
    {
        Lines {
            rows: Vec::new(alloc),
            arcs: Vec::new(alloc),
        }
    }

    /// How many there are.
    #[inline]
    pub fn len(&self) -> usize
        ensures { result ≡ length self.now }
    {
        self.rows.len()
    }

    pub fn is_empty(&self) -> bool
        ensures { IsTrue result ↔ (self.now ≡ []) }
    {
        self.rows.is_empty()
    }

    /// Line `i`, counted from 0.
    pub fn get(&self, i: usize) -> Line
        requires { i < length self.now }
        ensures { slice_get self.now i ≡ Some result }
    {
        let Row { what, slot } = self.rows[i];
        Line {
            what,
            arcs: arcs_of(&self.arcs, slot),
        }
    }

    /// The record of line `i`, counted from 0.
    #[inline]
    pub fn record(&self, i: usize) -> Record
        requires { i < length self.now }
        ensures { (other : Line) → result ≡ (slice_index_or self.now i other).what }
    {
        self.rows[i].what
    }

    /// The record of line `i`, counted from 0, where it was kept without arcs.
    #[inline(always)]
    pub fn bare(&self, i: usize) -> Option<Record>
        requires { i < length self.now }
        ensures { IfSome result (λ what. slice_get self.now i ≡ Some (record { what = what; arcs = no_arcs })) }
    {
        let Row { what, slot } = self.rows[i];
        if slot == 0 { Some(what) } else { None }
    }

    /// One more record at the end, without arcs. Without memory the lines stay.
    #[inline(always)]
    pub fn push_record(&mut self, what: Record) -> Result<(), AllocError>
        ensures ok { OnOk result (self.new ≡ self.old ++ record { what = what; arcs = no_arcs } ∷ []) }
        ensures err { OnErr result (self.new ≡ self.old) }
    {
        self.rows.push(Row { what, slot: 0 })?;
        Ok(())
    }

    /// One more line at the end, with its arcs. Without memory the lines stay, and where 2^32 - 1 lines have arcs.
    pub fn push(&mut self, line: Line) -> Result<(), AllocError>
        ensures ok { OnOk result (self.new ≡ self.old ++ line ∷ []) }
        ensures err { OnErr result (self.new ≡ self.old) }
    {
        let Some(slot) = next_slot(self.arcs.len()) else {
            return Err(AllocError);
        };
        self.rows.reserve(1)?;
        self.arcs.push(line.arcs)?;
        self.rows.push(Row {
            what: line.what,
            slot,
        })?;
        Ok(())
    }
}
