//! The pages that a call names.
ghost use Rattle.std.specs.Prelude.{◌≡◌, ◌+◌, ◌*◌, ◌/◌, ◌≤◌, IfSome, IfNone};
ghost use Rattle.guest_kernel.specs.Calls.{IsMapRange};

use pl_base::layout::{MAP_END, MAP_START, PAGE_BYTES};

/// `count` pages from page `first` on.
#[derive(Clone, Copy, Debug, PartialEq, Eq)]
pub struct Pages {
    pub first: u16,
    pub count: u16,
}

/// The pages that a call of map or unmap names: at least one, and all of them in the map region.
pub fn map_pages(addr: u32, count: u32) -> Option<Pages>
    ensures range { IfSome result (λ pages. IsMapRange addr count) }
    ensures first { IfSome result (λ pages. pages.first ≡ addr / PAGE_BYTES) }
    ensures count { IfSome result (λ pages. pages.count ≡ count) }
    ensures none { IfNone result (IsMapRange addr count → ⊥) }
{
    if addr % PAGE_BYTES != 0 || count == 0 {
        return None;
    }
    if addr < MAP_START || addr >= MAP_END || count > (MAP_END - addr) / PAGE_BYTES {
        return None;
    }
    Some(Pages {
        first: (addr / PAGE_BYTES) as u16,
        count: count as u16,
    })
}
