//! The longest runs of the bytes of memory, through whatever tells their nibbles.
ghost use Rattle.std.specs.Prelude.{◌≡◌, ℕ, true, ◌<◌, ◌≤◌, ◌+◌, ◌^◌, ◌++◌, length, slice_index, IfOk, OnOk};
ghost use Rattle.pl_base.specs.declared.layout.TheConstants.{MEMORY_BYTES, PAGE_BYTES};
ghost use Rattle.lifeguard.specs.State.{Bytes, nibble_at};
ghost use Rattle.lifeguard.specs.Pages.{IsPage};
ghost use Rattle.lifeguard.specs.Shadow.{state_of, bytes_of};
ghost use Rattle.report_text.specs.Runs.{runs_from, runs_of, AreLongestRuns, ended_run};

use lifeguard::{Lifeguard, PlainMonitor};
use pl_base::NoMemory;
use pl_base::layout::{MEMORY_BYTES, PAGE_BYTES};
use std::alloc::Global;

/// Bytes with one nibble that is not 0.
#[derive(Clone, Copy, Debug, PartialEq, Eq)]
pub struct ByteRun {
    /// The address of its first byte.
    pub first: u32,
    /// The address of its last byte, which is in it.
    pub last: u32,
    /// From 1 to 15.
    pub nibble: u8,
}

/// What tells the nibbles of the bytes of memory.
pub(crate) trait Nibbles {
    ghost bytes: { Self → Bytes };

    ghost count: { Self → ℕ };

    /// The nibble of a byte; 0 for a byte of no mapped page.
    fn nibble(&self, addr: u32) -> u8
        requires { addr < count self.now }
        ensures { result ≡ nibble_at (bytes self.now) addr };

    /// An address past `addr`, at most `size`, before which all bytes from `addr` on have its nibble.
    fn alike_end(&self, addr: u32, size: u32) -> u32
        requires inside { addr < size }
        requires told { size ≤ count self.now }
        ensures past { addr < result }
        ensures inside { result ≤ size }
        ensures alike { (a : ℕ) → addr ≤ a → a < result →
            nibble_at (bytes self.now) a ≡ nibble_at (bytes self.now) addr };
}

/// How many cells are compared in one go.
const BLOCK: u32 = 64;

/// The cells of a plain monitor, page by page.
#[derive(Clone, Copy)]
struct Pages<'a, L: Lifeguard> {
    monitor: &'a PlainMonitor<L>,
}

impl<'a, L: Lifeguard> Nibbles for Pages<'a, L> {
    ghost bytes = { λ nibbles. (state_of nibbles.monitor.now.shadow).bytes };

    ghost count = { λ nibbles. MEMORY_BYTES };

    #[inline]
    fn nibble(&self, addr: u32) -> u8 {
        let page = self.monitor.page((addr / PAGE_BYTES) as u16);
        cell_nibble(page, (addr % PAGE_BYTES) as usize)
    }

    #[inline]
    fn alike_end(&self, addr: u32, size: u32) -> u32 {
        let page = self.monitor.page((addr / PAGE_BYTES) as u16);
        let place = addr % PAGE_BYTES;
        size.min(addr + cells_alike(page, place))
    }
}

/// The nibble of a cell of a page; 0 for a byte of no mapped page.
#[inline]
fn cell_nibble(cells: &[u8], at: usize) -> u8
    ensures { result ≡ nibble_at (bytes_of cells.now) at }
{
    if at < cells.len() && cells[at] < 8 {
        cells[at]
    } else {
        0
    }
}

/// How many bytes of a page, from `place` on, are seen at one look to have the same nibble: all that are left of a page
/// without cells, a block, or one.
#[inline]
fn cells_alike(cells: &[u8], place: u32) -> u32
    requires inside { place < PAGE_BYTES }
    requires page { IsPage cells.now }
    ensures some { 0 < result }
    ensures inside { place + result ≤ PAGE_BYTES }
    ensures alike { (a : ℕ) → place ≤ a → a < place + result →
        nibble_at (bytes_of cells.now) a ≡ nibble_at (bytes_of cells.now) place }
{
    if cells.is_empty() {
        PAGE_BYTES - place
    } else if place % BLOCK == 0 && is_block_alike(cells, place as usize) {
        BLOCK
    } else {
        1
    }
}

/// Whether the cells of the block from `from` on are all the same.
#[inline]
fn is_block_alike(cells: &[u8], from: usize) -> bool
    requires { from + 64 ≤ length cells.now }
    ensures { result ≡ true → (a : ℕ) → from ≤ a → a < from + 64 →
        slice_index cells.now a ≡ slice_index cells.now from }
{
    let first = cells[from];
    let mut alike = true;
    for i in 0..BLOCK as usize {
        if cells[from + i] != first {
            alike = false;
        }
    }
    alike
}

/// Adds the run from `first` up to before `at`, where there is one.
fn close(done: &mut Vec<ByteRun>, first: u32, at: u32, nibble: u8) -> Result<(), NoMemory>
    requires { 0 < nibble → 0 < at }
    ensures { OnOk result (done.new.items ≡ done.old.items ++ ended_run first at nibble) }
{
    if nibble != 0 {
        done.push(ByteRun {
            first,
            last: at - 1,
            nibble,
        })?;
    }
    Ok(())
}

/// The longest runs of the bytes below `size`, by address.
pub(crate) fn runs_below<N: Nibbles + Copy>(
    alloc: Global,
    nibbles: N,
    size: u32,
) -> Result<Vec<ByteRun>, NoMemory>
    requires { size ≤ N.count nibbles }
    ensures runs { IfOk result (λ runs. runs.items ≡ runs_from (N.bytes nibbles) 0 size) }
    ensures longest { IfOk result (λ runs. AreLongestRuns (N.bytes nibbles) 0 size runs.items) }
{
    let mut done: Vec<ByteRun> = Vec::new(alloc);
    let mut first = 0u32;
    let mut nibble = 0u8;
    let mut at = 0u32;
    while at < size {
        let next = nibbles.nibble(at);
        if next != nibble {
            close(&mut done, first, at, nibble)?;
            first = at;
            nibble = next;
        }
        at = nibbles.alike_end(at, size);
    }
    close(&mut done, first, size, nibble)?;
    Ok(done)
}

/// The longest runs of bytes with one nibble that is not 0, over all memory, by address.
pub fn runs_of_plain<L: Lifeguard>(
    alloc: Global,
    m: &PlainMonitor<L>,
) -> Result<Vec<ByteRun>, NoMemory>
    ensures runs { IfOk result (λ runs. runs.items ≡ runs_of (state_of m.now.shadow).bytes) }
    ensures longest { IfOk result (λ runs. AreLongestRuns (state_of m.now.shadow).bytes 0 MEMORY_BYTES runs.items) }
{
    runs_below(alloc, Pages { monitor: m }, MEMORY_BYTES)
}
