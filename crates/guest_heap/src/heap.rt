//! The guest's heap.
ghost use Rattle.std.specs.Prelude.{◌≡◌, ℕ, ◌+◌, ◌*◌, ◌/◌, ◌%◌, ◌≤◌, ◌<◌, Some, None, List, IfOk, OnOk, OnErr, IfSome, IfNone, OnSome, length, slice_index};
ghost use Rattle.guest_heap.specs.Blocks.{asked, IsLive, changed};
ghost use Rattle.guest_heap.specs.FirstFit.{IsFirstFit, IsRefused};

use crate::holes::{Hole, give, take};
use pl_base::NoMemory;
use pl_base::layout::{HEAP_START, HEAP_UNITS, MAX_CALL_BYTES, UNIT_BYTES};
use std::alloc::Global;
use std::marker::Model;

/// The guest's heap.
#[derive(Drop)]
pub struct Heap {
    sizes: Vec<u32>,
    holes: Vec<Hole>,
}

impl Model for Heap {
    ghost use Rattle.std.specs.Prelude.{List, ℕ};

    ghost Value = { List ℕ };

    ghost use Rattle.guest_heap.specs.Tiled.{IsTiled};

    ghost view = { λ h. h.sizes.items };

    ghost invariant = { λ h. IsTiled h.sizes.items h.holes.items };
}

impl Heap {
    /// A heap with no live block.
    ///
    /// # Errors
    ///
    /// `NoMemory` where none was left for the table.
    pub fn new(alloc: Global) -> Result<Heap, NoMemory>
        ensures { IfOk result (λ heap. asked heap ≡ λ _. None) }
    {
        let sizes = vec![in alloc; 0; HEAP_UNITS as usize]?;
        let mut holes = Vec::new(alloc);
        holes.push(Hole {
            start: 0,
            end: HEAP_UNITS,
        })?;
        Ok(Heap { sizes, holes })
    }

    /// Takes a block of `n` bytes at the lowest place; gives its address. `None` exactly where `n` is 0 or above
    /// 65,536, or where it has no place.
    ///
    /// # Errors
    ///
    /// After `NoMemory` the heap is as before.
    pub fn alloc(&mut self, n: u32) -> Result<Option<u32>, NoMemory>
        ensures refused { IfOk result (λ answer. IfNone answer (IsRefused (IsLive self.old) n)) }
        ensures sized { IfOk result (λ answer. OnSome answer ((0 < n) × (n ≤ MAX_CALL_BYTES))) }
        ensures first { IfOk result (λ answer. IfSome answer (IsFirstFit (IsLive self.old) n)) }
        ensures live { IfOk result
            (λ answer. IfSome answer (λ at. asked self.new ≡ changed (asked self.old) at (Some n))) }

        ensures none { IfOk result (λ answer. IfNone answer (self.new ≡ self.old)) }
        ensures unchanged { OnErr result (self.new ≡ self.old) }
    {
        if n == 0 || n > MAX_CALL_BYTES {
            return Ok(None);
        }
        let Some(unit) = take(&mut self.holes, n.div_ceil(UNIT_BYTES)) else {
            return Ok(None);
        };
        self.sizes[unit as usize] = n;
        Ok(Some(HEAP_START + UNIT_BYTES * unit))
    }

    /// Gives the block that starts at `a` back; gives its asked size. `None` exactly where no live block starts there.
    ///
    /// # Errors
    ///
    /// `NoMemory` where none was left for one more hole; the heap is as before then.
    pub fn free(&mut self, a: u32) -> Result<Option<u32>, NoMemory>
        ensures size { IfOk result (λ answer. answer ≡ asked self.old a) }
        ensures live { OnOk result (asked self.new ≡ changed (asked self.old) a None) }
        ensures none { IfOk result (λ answer. IfNone answer (self.new ≡ self.old)) }
        ensures unchanged { OnErr result (self.new ≡ self.old) }
    {
        let Some(unit) = find(&self.sizes, a) else {
            return Ok(None);
        };
        let size = self.sizes[unit as usize];
        give(&mut self.holes, unit, unit + size.div_ceil(UNIT_BYTES))?;
        self.sizes[unit as usize] = 0;
        Ok(Some(size))
    }

    /// The asked size of the live block that starts at `a`; `None` exactly where there is none.
    pub fn live(&self, a: u32) -> Option<u32>
        ensures { result ≡ asked self.now a }
    {
        let unit = find(&self.sizes, a)?;
        Some(self.sizes[unit as usize])
    }
}

/// The unit at which the live block of an address starts.
fn find(sizes: &[u32], a: u32) -> Option<u32>
    requires { length sizes.now ≡ HEAP_UNITS }
    ensures none { IfNone result (asked sizes.now a ≡ None) }
    ensures place { IfSome result (λ unit. a ≡ HEAP_START + UNIT_BYTES * unit) }
    ensures live { IfSome result (λ unit. 0 < slice_index sizes.now unit) }
    ensures within { IfSome result (λ unit. unit < HEAP_UNITS) }
{
    if a < HEAP_START {
        return None;
    }
    if a % UNIT_BYTES != 0 {
        return None;
    }
    let unit = (a - HEAP_START) / UNIT_BYTES;
    if unit >= HEAP_UNITS {
        return None;
    }
    if sizes[unit as usize] == 0 {
        return None;
    }
    Some(unit)
}
