//! One page of cells.

use crate::cells::{UNMAPPED, change_range, replace, store};
use crate::guard::{Lifeguard, RangeKind};
use pl_base::NoMemory;
use pl_base::layout::PAGE_BYTES;
use std::alloc::Global;
use std::marker::Model;

/// The cells of a page: one for each of its bytes, or none while no byte of it is mapped.
#[derive(Drop)]
pub struct Page {
    cells: Vec<u8>,
}

impl Model for Page {
    ghost use Rattle.std.specs.Prelude.{List, ℕ};
    ghost use Rattle.lifeguard.specs.Pages.{IsPage};

    ghost Value = { List ℕ };

    ghost view = { λ page. page.cells.items };

    ghost invariant = { λ page. IsPage page.cells.items };
}

impl Page {
    ghost use Rattle.std.specs.Prelude.{◌≡◌, ◌+◌, ◌<◌, ◌≤◌, [], length, OnOk};
    ghost use Rattle.lifeguard.specs.Pages.{IsPage};
    ghost use Rattle.lifeguard.specs.Rules.{Rules};
    ghost use Rattle.lifeguard.specs.State.{changed, replaced};
    ghost use Rattle.lifeguard.specs.Shadow.{bytes_of, cell_value};
    ghost use Rattle.lifeguard.specs.Plain.{stored};

    /// A page without cells.
    pub fn new(alloc: Global) -> Page
        ensures { result ≡ [] }
    {
        Page {
            cells: Vec::new(alloc),
        }
    }

    /// The cells, 4,096 or none.
    #[inline]
    pub fn cells(&self) -> &[u8]
        ensures cells { result.now ≡ self.now }
        ensures page { IsPage result.now }
    {
        self.cells.as_slice()
    }

    /// Makes cells where there are none. They stand for what none stood for: no byte is mapped.
    pub fn make_room(&mut self) -> Result<(), NoMemory>
        ensures room { OnOk result (length self.new ≡ PAGE_BYTES) }
        ensures same { bytes_of self.new ≡ bytes_of self.old }
    {
        if self.cells.is_empty() {
            self.cells.resize(PAGE_BYTES as usize, UNMAPPED)?;
        }
        Ok(())
    }

    /// Changes the nibbles of a range that is taken, freed or read from outside.
    pub fn change<L: Lifeguard>(&mut self, guard: L, kind: RangeKind, at: u32, len: u32)
        requires inside { at + len ≤ PAGE_BYTES }
        ensures { bytes_of self.new
            ≡ changed (λ i old. (L.rules guard).range_state kind old) at len (bytes_of self.old) }
    {
        if !self.cells.is_empty() {
            change_range(guard, kind, &mut self.cells, at, len);
        }
    }

    /// Stores a register with this mask into a range of at most 8 bytes.
    #[inline]
    pub fn store<L: Lifeguard>(&mut self, guard: L, mask: u8, at: u32, len: u8)
        requires few { len ≤ 8 }
        requires inside { at + len ≤ PAGE_BYTES }
        ensures { bytes_of self.new ≡ stored (L.rules guard) mask at len (bytes_of self.old) }
    {
        if !self.cells.is_empty() {
            store(guard, mask, &mut self.cells, at, len);
        }
    }

    /// Writes one cell into the whole page.
    pub fn fill(&mut self, cell: u8)
        requires room { length self.old ≡ PAGE_BYTES }
        ensures { bytes_of self.new ≡ replaced (cell_value cell) 0 PAGE_BYTES (bytes_of self.old) }
    {
        replace(&mut self.cells, cell, 0, PAGE_BYTES);
    }

    /// Maps no byte any more.
    pub fn clear(&mut self)
        ensures { self.new ≡ [] }
    {
        self.cells.clear();
    }
}
