//! One mapped page.
ghost use Rattle.std.specs.Prelude.{◌≡◌, ℕ, ◌+◌, ◌-◌, ◌^◌, ◌≤◌, ◌<◌, ◌&&◌, if◌then◌else◌, length, slice_index, nat_le, nat_lt, take, IfOk, replicate};
ghost use Rattle.std.specs.Int.{to_le_bytes, w32};
ghost use Rattle.guest_mem.specs.Bytes.{IsWidth, number_from, overwritten};

use pl_base::NoMemory;
use pl_base::layout::PAGE_BYTES;
use std::alloc::Global;
use std::marker::Model;

/// How many bytes a page has, as a length of a slice.
pub const PAGE: usize = PAGE_BYTES as usize;

/// The little-endian number in the `width` bytes from `at` on; `width` is 1, 2 or 4.
pub fn number(bytes: &[u8], at: usize, width: u8) -> u32
    requires width { IsWidth width }
    requires within { at + width ≤ length bytes.now }
    ensures number { result ≡ number_from (slice_index bytes.now) at width }
    ensures small { result < 256 ^ width }
{
    let low = u32::from(bytes[at]);
    match width {
        1 => low,
        2 => low + 256 * u32::from(bytes[at + 1]),
        _ => {
            let high = u32::from(bytes[at + 2]) + 256 * u32::from(bytes[at + 3]);
            low + 256 * u32::from(bytes[at + 1]) + 65536 * high
        }
    }
}

/// One mapped page.
#[derive(Drop)]
pub struct Page {
    text: bool,
    bytes: Vec<u8>,
}

impl Model for Page {
    ghost use Rattle.std.specs.Prelude.{◌≡◌, length};
    ghost use Rattle.guest_mem.specs.Image.{PageImage};
    ghost use Rattle.pl_base.specs.declared.layout.TheConstants.{PAGE_BYTES};

    ghost Value = { PageImage };

    ghost view = { λ p. record { text = p.text; bytes = p.bytes.items } };

    ghost invariant = { λ p. length p.bytes.items ≡ PAGE_BYTES };
}

impl Page {
    /// A page of zeros.
    pub fn zeros(alloc: Global, text: bool) -> Result<Page, NoMemory>
        ensures text { IfOk result (λ p. p.text ≡ text) }
        ensures zeros { IfOk result (λ p. (k : ℕ) → slice_index p.bytes k ≡ 0) }
    {
        let bytes = vec![in alloc; 0; PAGE]?;
        Ok(Page { text, bytes })
    }

    /// Whether stores to the page fault.
    pub fn is_text(&self) -> bool
        ensures { result ≡ self.now.text }
    {
        self.text
    }

    /// The little-endian number in the `width` bytes from `at` on; `width` is 1, 2 or 4.
    pub fn load(&self, at: usize, width: u8) -> u32
        requires width { IsWidth width }
        requires within { at + width ≤ PAGE_BYTES }
        ensures number { result ≡ number_from (slice_index self.now.bytes) at width }
        ensures small { result < 256 ^ width }
    {
        number(&self.bytes, at, width)
    }

    /// Writes the `width` low bytes of `value` from `at` on, the lowest first; `width` is 1, 2 or 4.
    pub fn store(&mut self, at: usize, width: u8, value: u32)
        requires width { IsWidth width }
        requires within { at + width ≤ PAGE_BYTES }
        ensures text { self.new.text ≡ self.old.text }
        ensures bytes { (k : ℕ) → slice_index self.new.bytes k ≡
            overwritten (slice_index self.old.bytes) at (take width (to_le_bytes w32 value)) k }
    {
        let [b0, b1, b2, b3] = value.to_le_bytes();
        match width {
            1 => self.copy_in(at, &[b0]),
            2 => self.copy_in(at, &[b0, b1]),
            _ => self.copy_in(at, &[b0, b1, b2, b3]),
        }
    }

    /// Copies the bytes from `at` on, as many as `into` has.
    pub fn copy_out(&self, at: usize, into: &mut [u8])
        requires { at + length into.old ≤ PAGE_BYTES }
        ensures { (k : ℕ) → k < length into.new → slice_index into.new k ≡ slice_index self.now.bytes (at + k) }
    {
        into.copy_from_slice(&self.bytes[at..at + into.len()]);
    }

    /// Writes the bytes of `from` from `at` on.
    pub fn copy_in(&mut self, at: usize, from: &[u8])
        requires { at + length from.now ≤ PAGE_BYTES }
        ensures text { self.new.text ≡ self.old.text }
        ensures bytes { (k : ℕ) → slice_index self.new.bytes k ≡
            overwritten (slice_index self.old.bytes) at from.now k }
    {
        self.bytes[at..at + from.len()].copy_from_slice(from);
    }
}
