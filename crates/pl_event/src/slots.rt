//! Where what most rows lack is kept: in a list beside the rows, named by its slot, which is 0 where a row has none.
ghost use Rattle.std.specs.Prelude.{◌≡◌, ◌+◌, ◌^◌, ◌≤◌, MatchOption};

/// The slot after `len` of them, or none where it has more than 32 bits.
#[inline]
pub fn next_slot(len: usize) -> Option<u32>
    ensures { MatchOption result (2 ^ 32 ≤ len + 1) (λ slot. slot ≡ len + 1) }
{
    u32::try_from(len).ok()?.checked_add(1)
}
