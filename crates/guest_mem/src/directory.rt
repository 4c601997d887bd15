//! Pages in their directory: taken in, taken out and written.
ghost use Rattle.std.specs.Prelude.{◌≡◌, ℕ, ◌+◌, ◌*◌, ◌/◌, ◌%◌, ◌^◌, ◌≤◌, ◌<◌, Bool, true, false, Some, None, length, vec_len, take, IfOk, IfErr, OnOk, OnErr, All};
ghost use Rattle.std.specs.Int.{to_le_bytes, w32};
ghost use Rattle.pl_base.specs.Pages.{marked};
ghost use Rattle.guest_mem.specs.Bytes.{IsWidth, AllMapped, written, repaged};
ghost use Rattle.guest_mem.specs.Directory.{IsZeroPage};
ghost use Rattle.guest_mem.specs.Faults.{IsWritable, IsWriteFault};
ghost use Rattle.guest_mem.specs.Memory.{bytes, mapped, texts};
ghost use Rattle.pl_base.specs.declared.layout.TheConstants.{PAGE_BYTES};

use crate::fault::MemFault;
use crate::page::{PAGE, Page};
use pl_base::NoMemory;
use pl_base::layout::PAGE_COUNT;
use std::alloc::Global;

/// How many pages there are, as a length of a slice.
pub const PAGES: usize = PAGE_COUNT as usize;

/// So many pages of zeros.
fn zero_pages(alloc: Global, count: usize, text: bool) -> Result<Vec<Page>, NoMemory>
    ensures count { IfOk result (λ pages. vec_len pages ≡ count) }
    ensures zeros { IfOk result (λ pages. All (IsZeroPage text) pages.items) }
{
    let mut pages = Vec::with_capacity(alloc, count)?;
    for _ in 0..count {
        pages.push(Page::zeros(alloc, text)?)?;
    }
    Ok(pages)
}

/// Puts `count` pages of zeros into the directory, from `first` on.
pub fn install(
    alloc: Global,
    pages: &mut [Option<Page>],
    first: usize,
    count: usize,
    text: bool,
) -> Result<(), NoMemory>
    requires { first + count ≤ length pages.old }
    ensures bytes { OnOk result (bytes pages.new ≡ repaged (bytes pages.old) first count (Some 0)) }
    ensures mapped { OnOk result (mapped pages.new ≡ marked (mapped pages.old) first count true) }
    ensures texts { OnOk result (texts pages.new ≡ marked (texts pages.old) first count text) }
    ensures unchanged { OnErr result (pages.new ≡ pages.old) }
{
    let mut fresh = zero_pages(alloc, count, text)?;
    for number in first..first + count {
        pages[number] = fresh.pop();
    }
    Ok(())
}

/// Takes `count` pages out of the directory, from `first` on.
pub fn clear(pages: &mut [Option<Page>], first: usize, count: usize)
    requires { (number : ℕ) → first ≤ number → number < first + count → number < length pages.old }
    ensures bytes { bytes pages.new ≡ repaged (bytes pages.old) first count None }
    ensures mapped { mapped pages.new ≡ marked (mapped pages.old) first count false }
    ensures texts { texts pages.new ≡ marked (texts pages.old) first count false }
{
    for number in first..first + count {
        pages[number] = None;
    }
}

/// Writes a piece within one mapped page, from the address `at` on.
pub fn put(pages: &mut [Option<Page>], at: usize, piece: &[u8])
    requires mapped { mapped pages.old (at / PAGE_BYTES) ≡ true }
    requires within { at % PAGE_BYTES + length piece.now ≤ PAGE_BYTES }
    ensures bytes { bytes pages.new ≡ written (bytes pages.old) at piece.now }
    ensures mapped { mapped pages.new ≡ mapped pages.old }
    ensures texts { texts pages.new ≡ texts pages.old }
{
    if let Some(page) = &mut pages[at / PAGE] {
        page.copy_in(at % PAGE, piece);
    }
}

/// Writes bytes on mapped pages, from the address `at` on.
pub fn put_all(pages: &mut [Option<Page>], at: usize, from: &[u8])
    requires mapped { AllMapped (bytes pages.old) at (length from.now) }
    requires fits { at < 2 ^ 32 }
    ensures bytes { bytes pages.new ≡ written (bytes pages.old) at from.now }
    ensures mapped { mapped pages.new ≡ mapped pages.old }
    ensures texts { texts pages.new ≡ texts pages.old }
{
    let mut done = 0;
    while done < from.len() {
        let room = PAGE - (at + done) % PAGE;
        let end = from.len().min(done + room);
        put(pages, at + done, &from[done..end]);
        done = end;
    }
}

/// Writes the `width` low bytes of `value` within one page, from the address `at` on, the lowest first.
pub fn store(pages: &mut [Option<Page>], at: u32, width: u8, value: u32) -> Result<(), MemFault>
    requires width { IsWidth width }
    requires within { at % PAGE_BYTES + width ≤ PAGE_BYTES }
    ensures can { OnOk result (IsWritable pages.old at width) }
    ensures below { OnOk result (at / PAGE_BYTES < length pages.old) }
    ensures bytes { OnOk result (bytes pages.new ≡ written (bytes pages.old) at (take width (to_le_bytes w32 value))) }
    ensures mapped { mapped pages.new ≡ mapped pages.old }
    ensures texts { texts pages.new ≡ texts pages.old }

    ensures fault { IfErr result (IsWriteFault pages.old at width) }
    ensures unchanged { OnErr result (pages.new ≡ pages.old) }
{
    let number = at as usize / PAGE;
    if number >= pages.len() {
        return Err(MemFault::Unmapped { byte: at });
    }
    let Some(page) = &mut pages[number] else {
        return Err(MemFault::Unmapped { byte: at });
    };
    if page.is_text() {
        return Err(MemFault::ReadOnly);
    }
    page.store(at as usize % PAGE, width, value);
    Ok(())
}
