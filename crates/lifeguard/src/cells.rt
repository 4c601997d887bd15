//! Cells, one for each byte of a page: a nibble below 8, or 8 for a byte of no mapped page.
ghost use Rattle.std.specs.Prelude.{◌≡◌, ◌+◌, ◌<◌, ◌≤◌, ◌^◌, length, find, option_map, IfSome};
ghost use Rattle.pl_base.specs.Widths.{load_bytes, store_bytes};
ghost use Rattle.lifeguard.specs.Rules.{Rules};
ghost use Rattle.lifeguard.specs.State.{changed, replaced, nibble_at as nibble_of_byte, span};
ghost use Rattle.lifeguard.specs.Shadow.{bytes_of, cell_value};
ghost use Rattle.lifeguard.specs.Plain.{stored, mask_bit, loaded_mask as mask_of_bytes};
ghost use Rattle.lifeguard.specs.Checks.{is_bad as is_bad_nibble};

use crate::guard::{Lifeguard, RangeKind, load_mask};
use pl_base::LoadWidth;

/// The cell of a byte of no mapped page.
pub const UNMAPPED: u8 = 8;

/// What is asked of each byte of a range.
#[derive(Clone, Copy)]
pub enum Check {
    /// That it may be touched.
    Access,
    /// That it may go outside.
    Value,
}

/// The nibble of a byte; none for a byte of no mapped page, and past the end.
#[inline]
pub fn byte_at(cells: &[u8], addr: u32) -> Option<u8>
    ensures value { result ≡ bytes_of cells.now addr }
    ensures small { IfSome result (λ nibble. nibble < 8) }
{
    if (addr as usize) < cells.len() {
        value_of(cells[addr as usize])
    } else {
        None
    }
}

#[inline]
fn value_of(cell: u8) -> Option<u8>
    ensures value { result ≡ cell_value cell }
    ensures small { IfSome result (λ nibble. nibble < 8) }
{
    if cell < 8 { Some(cell) } else { None }
}

/// The nibble that a byte reads as.
#[inline]
pub fn nibble_at(cells: &[u8], addr: u32) -> u8
    ensures value { result ≡ nibble_of_byte (bytes_of cells.now) addr }
    ensures small { result < 8 }
{
    match byte_at(cells, addr) {
        Some(nibble) => nibble,
        None => 0,
    }
}

/// Whether a nibble fails the check.
#[inline]
pub fn is_bad<L: Lifeguard>(guard: L, check: Check, nibble: u8) -> bool
    requires { nibble < 8 }
    ensures { result ≡ is_bad_nibble (L.rules guard) check nibble }
{
    match check {
        Check::Access => guard.bad_access(nibble),
        Check::Value => guard.bad_value(nibble),
    }
}

/// The first bad byte of a range.
#[inline]
pub fn first_bad<L: Lifeguard>(
    guard: L,
    check: Check,
    cells: &[u8],
    addr: u32,
    len: u32,
) -> Option<u32>
    requires { addr + len < 2 ^ 32 }
    ensures inside { IfSome result (λ bad. bad < addr + len) }
    ensures first { result
        ≡ find (λ a. is_bad_nibble (L.rules guard) check (nibble_of_byte (bytes_of cells.now) a)) (span addr len) }
{
    for at in addr..addr + len {
        if is_bad(guard, check, nibble_at(cells, at)) {
            return Some(at);
        }
    }
    None
}

/// The mask of a register that a load fills.
#[inline]
pub fn loaded_mask<L: Lifeguard>(guard: L, width: LoadWidth, cells: &[u8], addr: u32) -> u8
    requires { addr + load_bytes width < 2 ^ 32 }
    ensures { result ≡ mask_of_bytes (L.rules guard) width (bytes_of cells.now) addr }
{
    let first = nibble_at(cells, addr);
    match width {
        LoadWidth::B | LoadWidth::Bu => load_mask(&guard, [first, 0, 0, 0], width),
        LoadWidth::H | LoadWidth::Hu => {
            load_mask(&guard, [first, nibble_at(cells, addr + 1), 0, 0], width)
        }
        LoadWidth::W => {
            let second = nibble_at(cells, addr + 1);
            let third = nibble_at(cells, addr + 2);
            let fourth = nibble_at(cells, addr + 3);
            load_mask(&guard, [first, second, third, fourth], width)
        }
    }
}

#[inline]
fn ranged_cell<L: Lifeguard>(guard: L, kind: RangeKind, cell: u8) -> u8
    ensures { cell_value result ≡ option_map ((L.rules guard).range_state kind) (cell_value cell) }
{
    if cell < 8 {
        guard.range_state(kind, cell)
    } else {
        cell
    }
}

/// Changes the nibbles of a range that is taken, freed or read from outside.
pub fn change_range<L: Lifeguard>(guard: L, kind: RangeKind, cells: &mut [u8], addr: u32, len: u32)
    requires inside { addr + len ≤ length cells.old }
    requires below { addr + len < 2 ^ 32 }
    ensures { bytes_of cells.new
        ≡ changed (λ i old. (L.rules guard).range_state kind old) addr len (bytes_of cells.old) }
{
    for at in addr as usize..(addr + len) as usize {
        cells[at] = ranged_cell(guard, kind, cells[at]);
    }
}

#[inline]
fn stored_cell<L: Lifeguard>(guard: L, bit: bool, cell: u8) -> u8
    ensures { cell_value result ≡ option_map (λ old. (L.rules guard).store_nibble old bit) (cell_value cell) }
{
    if cell < 8 {
        guard.store_nibble(cell, bit)
    } else {
        cell
    }
}

#[inline]
fn bit_at(mask: u8, i: u8) -> bool
    requires { i < 8 }
    ensures { result ≡ mask_bit mask i }
{
    (mask >> i) % 2 == 1
}

/// Stores a register with this mask into a range of at most 8 bytes.
#[inline]
pub fn store<L: Lifeguard>(guard: L, mask: u8, cells: &mut [u8], addr: u32, len: u8)
    requires few { len ≤ 8 }
    requires inside { addr + len ≤ length cells.old }
    requires below { addr + len < 2 ^ 32 }
    ensures { bytes_of cells.new ≡ stored (L.rules guard) mask addr len (bytes_of cells.old) }
{
    for i in 0..len {
        let at = addr as usize + i as usize;
        cells[at] = stored_cell(guard, bit_at(mask, i), cells[at]);
    }
}

/// Writes one cell into a whole range.
pub fn replace(cells: &mut [u8], cell: u8, addr: u32, len: u32)
    requires inside { addr + len ≤ length cells.old }
    requires below { addr + len < 2 ^ 32 }
    ensures { bytes_of cells.new ≡ replaced (cell_value cell) addr len (bytes_of cells.old) }
{
    for at in addr as usize..(addr + len) as usize {
        cells[at] = cell;
    }
}
