//! The cells of all memory, page by page.
ghost use Rattle.std.specs.Prelude.{◌≡◌, ℕ, ◌+◌, ◌*◌, ◌%◌, ◌<◌, ◌≤◌, ◌^◌, [], length, find, All, fold, IfOk, OnOk, vec_len, replicate};
ghost use Rattle.pl_base.specs.declared.layout.TheConstants.{PAGE_COUNT};
ghost use Rattle.pl_base.specs.Widths.{load_bytes};
ghost use Rattle.lifeguard.specs.Rules.{Rules};
ghost use Rattle.lifeguard.specs.State.{changed, paged, nothing, nibble_at as nibble_of_byte, span};
ghost use Rattle.lifeguard.specs.Shadow.{bytes_in, cell_value};
ghost use Rattle.lifeguard.specs.Pages.{HasRoom};
ghost use Rattle.lifeguard.specs.Plain.{stored, loaded_mask as mask_of_bytes};
ghost use Rattle.lifeguard.specs.Checks.{is_bad as is_bad_nibble};

use crate::cells::{Check, byte_at, first_bad, is_bad, loaded_mask, nibble_at};
use crate::guard::{Lifeguard, RangeKind};
use crate::page::Page;
use pl_base::layout::PAGE_BYTES;
use pl_base::{LoadWidth, NoMemory};
use pl_event::{PageKind, PageRun};
use std::alloc::Global;

/// So many pages without cells.
pub fn unmapped_pages(alloc: Global, count: usize) -> Result<Vec<Page>, NoMemory>
    ensures count { IfOk result (λ pages. vec_len pages ≡ count) }
    ensures unmapped { IfOk result (λ pages. bytes_in pages.items ≡ nothing) }
{
    let mut pages = Vec::with_capacity(alloc, count)?;
    for _ in 0..count {
        pages.push(Page::new(alloc))?;
    }
    Ok(pages)
}

/// The nibble of a byte; none for a byte of no mapped page, and past the end.
#[inline]
pub fn byte_in(pages: &[Page], addr: u32) -> Option<u8>
    ensures { result ≡ bytes_in pages.now addr }
{
    let number = (addr / PAGE_BYTES) as usize;
    if number < pages.len() {
        byte_at(pages[number].cells(), addr % PAGE_BYTES)
    } else {
        None
    }
}

/// The nibble that a byte reads as.
#[inline]
fn nibble_in(pages: &[Page], addr: u32) -> u8
    requires { addr < PAGE_BYTES * length pages.now }
    ensures value { result ≡ nibble_of_byte (bytes_in pages.now) addr }
    ensures small { result < 8 }
{
    nibble_at(
        pages[(addr / PAGE_BYTES) as usize].cells(),
        addr % PAGE_BYTES,
    )
}

/// The first bad byte of a range.
pub fn first_bad_in<L: Lifeguard>(
    guard: L,
    check: Check,
    pages: &[Page],
    addr: u32,
    len: u32,
) -> Option<u32>
    requires inside { addr + len ≤ PAGE_BYTES * length pages.now }
    requires below { addr + len < 2 ^ 32 }
    ensures { result
        ≡ find (λ a. is_bad_nibble (L.rules guard) check (nibble_of_byte (bytes_in pages.now) a)) (span addr len) }
{
    for at in addr..addr + len {
        if is_bad(guard, check, nibble_in(pages, at)) {
            return Some(at);
        }
    }
    None
}

/// The first bad byte of a range within one page.
#[inline]
pub fn first_bad_on_page<L: Lifeguard>(
    guard: L,
    check: Check,
    pages: &[Page],
    addr: u32,
    len: u32,
) -> Option<u32>
    requires inside { addr < PAGE_BYTES * length pages.now }
    requires within { addr % PAGE_BYTES + len ≤ PAGE_BYTES }
    ensures { result
        ≡ find (λ a. is_bad_nibble (L.rules guard) check (nibble_of_byte (bytes_in pages.now) a)) (span addr len) }
{
    let place = addr % PAGE_BYTES;
    let cells = pages[(addr / PAGE_BYTES) as usize].cells();
    match first_bad(guard, check, cells, place, len) {
        Some(bad) => Some(addr - place + bad),
        None => None,
    }
}

/// The mask of a register that a load fills from one page.
#[inline]
pub fn loaded_mask_on_page<L: Lifeguard>(
    guard: L,
    width: LoadWidth,
    pages: &[Page],
    addr: u32,
) -> u8
    requires inside { addr < PAGE_BYTES * length pages.now }
    requires within { addr % PAGE_BYTES + load_bytes width ≤ PAGE_BYTES }
    ensures { result ≡ mask_of_bytes (L.rules guard) width (bytes_in pages.now) addr }
{
    let cells = pages[(addr / PAGE_BYTES) as usize].cells();
    loaded_mask(guard, width, cells, addr % PAGE_BYTES)
}

/// Stores a register with this mask into a range of at most 8 bytes within one page.
#[inline]
pub fn store_on_page<L: Lifeguard>(guard: L, mask: u8, pages: &mut [Page], addr: u32, len: u8)
    requires few { len ≤ 8 }
    requires inside { addr < PAGE_BYTES * length pages.old }
    requires within { addr % PAGE_BYTES + len ≤ PAGE_BYTES }
    ensures { bytes_in pages.new ≡ stored (L.rules guard) mask addr len (bytes_in pages.old) }
{
    let number = (addr / PAGE_BYTES) as usize;
    pages[number].store(guard, mask, addr % PAGE_BYTES, len);
}

/// Changes the nibbles of a range within one page.
#[inline]
fn change_on_page<L: Lifeguard>(guard: L, kind: RangeKind, pages: &mut [Page], addr: u32, len: u32)
    requires inside { addr < PAGE_BYTES * length pages.old }
    requires within { addr % PAGE_BYTES + len ≤ PAGE_BYTES }
    ensures { bytes_in pages.new
        ≡ changed (λ i old. (L.rules guard).range_state kind old) addr len (bytes_in pages.old) }
{
    let number = (addr / PAGE_BYTES) as usize;
    pages[number].change(guard, kind, addr % PAGE_BYTES, len);
}

/// Changes the nibbles of a range that is taken, freed or read from outside.
pub fn change_range_in<L: Lifeguard>(
    guard: L,
    kind: RangeKind,
    pages: &mut [Page],
    addr: u32,
    len: u32,
)
    requires inside { addr + len ≤ PAGE_BYTES * length pages.old }
    requires below { addr + len < 2 ^ 31 }
    ensures { bytes_in pages.new
        ≡ changed (λ i old. (L.rules guard).range_state kind old) addr len (bytes_in pages.old) }
{
    let mut done = 0;
    while done < len {
        let at = addr + done;
        let piece = (PAGE_BYTES - at % PAGE_BYTES).min(len - done);
        change_on_page(guard, kind, pages, at, piece);
        done += piece;
    }
}

/// Makes cells for all bytes of these pages. What they stand for stays, also where no memory is left.
pub fn make_room(pages: &mut [Page], page: u16, count: u16) -> Result<(), NoMemory>
    requires { page + count ≤ length pages.old }
    ensures room { OnOk result (HasRoom page count pages.new) }
    ensures same { bytes_in pages.new ≡ bytes_in pages.old }
{
    for number in page as usize..page as usize + count as usize {
        pages[number].make_room()?;
    }
    Ok(())
}

/// Writes one cell for each byte of these pages.
fn fill_pages(pages: &mut [Page], cell: u8, page: u16, count: u16)
    requires inside { page + count ≤ length pages.old }
    requires room { HasRoom page count pages.old }
    ensures { bytes_in pages.new ≡ paged (cell_value cell) page count (bytes_in pages.old) }
{
    for number in page as usize..page as usize + count as usize {
        pages[number].fill(cell);
    }
}

/// Maps pages, each byte with the nibble that the kind of page gives it.
pub fn map_pages<L: Lifeguard>(guard: L, kind: PageKind, pages: &mut [Page], page: u16, count: u16)
    requires inside { page + count ≤ length pages.old }
    requires room { HasRoom page count pages.old }
    ensures { bytes_in pages.new ≡ paged (Some ((L.rules guard).page_state kind)) page count (bytes_in pages.old) }
{
    fill_pages(pages, guard.page_state(kind), page, count);
}

/// Unmaps pages.
pub fn unmap_pages(pages: &mut [Page], page: u16, count: u16)
    requires inside { page + count ≤ length pages.old }
    ensures { bytes_in pages.new ≡ paged None page count (bytes_in pages.old) }
{
    for number in page as usize..page as usize + count as usize {
        pages[number].clear();
    }
}

/// Maps runs of pages, one after the other.
pub fn map_runs<L: Lifeguard>(
    guard: L,
    pages: &mut [Page],
    runs: &[PageRun],
) -> Result<(), NoMemory>
    requires whole { length pages.old ≡ PAGE_COUNT }
    requires inside { All (λ run. run.first + run.count ≤ PAGE_COUNT) runs.now }
    ensures { OnOk result (bytes_in pages.new
        ≡ fold (λ bytes run. paged (Some ((L.rules guard).page_state run.kind)) run.first run.count bytes)
        (bytes_in pages.old) runs.now) }
{
    for run in runs {
        make_room(pages, run.first, run.count)?;
        map_pages(guard, run.kind, pages, run.first, run.count);
    }
    Ok(())
}
