//! The guest's memory.
ghost use Rattle.std.specs.Prelude.{◌≡◌, ℕ, ◌+◌, ◌*◌, ◌/◌, ◌%◌, ◌^◌, ◌≤◌, ◌<◌, Bool, true, false, Some, None, length, slice_index, take, IfOk, IfErr, OnOk, OnErr, IfNone, MatchOption, MatchBool, IsTrue, IsSome, IsNone};
ghost use Rattle.std.specs.Option.{option_copied};
ghost use Rattle.std.specs.Int.{to_le_bytes, w32};
ghost use Rattle.pl_base.specs.Pages.{marked, EachPage};
ghost use Rattle.guest_mem.specs.Bytes.{IsWidth, number_at, written, repaged, AllMapped, IsFirstUnmapped};
ghost use Rattle.guest_mem.specs.Memory.{page_at, bytes, mapped, texts};
ghost use Rattle.guest_mem.specs.Faults.{InRange, SomePage, CanMap, IsMapFault, IsReadFault, IsWritable, IsWriteFault, HasText};
ghost use Rattle.pl_base.specs.declared.layout.TheConstants.{PAGE_BYTES, PAGE_COUNT, MEMORY_BYTES};

use crate::directory::{PAGES, clear, install, put_all, store};
use crate::fault::{MapFault, MemFault, NotMapped};
use crate::page::{PAGE, Page, number};
use pl_base::NoMemory;
use pl_base::layout::MAX_MAPPED_PAGES;
use std::alloc::Global;
use std::marker::Model;

/// The guest's memory.
#[derive(Drop)]
pub struct PagedMem {
    alloc: Global,
    pages: Vec<Option<Page>>,
    count: u32,
}

impl Model for PagedMem {
    ghost use Rattle.std.specs.Prelude.{List, Option};
    ghost use Rattle.guest_mem.specs.Image.{PageImage};

    ghost Value = { List (Option PageImage) };

    ghost use Rattle.guest_mem.specs.Directory.{IsDirectory};

    ghost view = { λ m. m.pages.items };

    ghost invariant = { λ m. IsDirectory m.pages.items m.count };
}

impl PagedMem {
    /// A memory with no page mapped.
    ///
    /// # Errors
    ///
    /// `NoMemory` where none was left for the directory.
    pub fn new(alloc: Global) -> Result<PagedMem, NoMemory>
        ensures bytes { IfOk result (λ m. bytes m ≡ λ _. None) }
        ensures mapped { IfOk result (λ m. mapped m ≡ λ _. false) }
        ensures texts { IfOk result (λ m. texts m ≡ λ _. false) }
    {
        let mut pages = Vec::with_capacity(alloc, PAGES)?;
        for _ in 0..PAGES {
            pages.push(None)?;
        }
        Ok(PagedMem {
            alloc,
            pages,
            count: 0,
        })
    }

    /// Maps `count` pages from `page` on, at least one, which hold zeros then; `text` says that stores to them fault.
    ///
    /// # Errors
    ///
    /// - `Range` exactly where a page is past 4,095.
    /// - `Mapped` exactly where none is, and one of the pages is mapped.
    /// - `TooMany` exactly where neither holds, and more than 512 pages would be mapped.
    /// - `NoMemory` where none of these holds and no memory was left. The memory is as before after each of them.
    pub fn map(&mut self, page: u16, count: u16, text: bool) -> Result<(), MapFault>
        requires { 1 ≤ count }
        ensures can { OnOk result (CanMap self.old page count) }
        ensures bytes { OnOk result (bytes self.new ≡ repaged (bytes self.old) page count (Some 0)) }
        ensures mapped { OnOk result (mapped self.new ≡ marked (mapped self.old) page count true) }
        ensures texts { OnOk result (texts self.new ≡ marked (texts self.old) page count text) }

        ensures fault { IfErr result (IsMapFault self.old page count) }
        ensures unchanged { OnErr result (self.new ≡ self.old) }
    {
        let first = usize::from(page);
        let end = first + usize::from(count);
        if end > PAGES {
            return Err(MapFault::Range);
        }
        if self.any_mapped(first, end) {
            return Err(MapFault::Mapped);
        }
        if self.count + u32::from(count) > MAX_MAPPED_PAGES {
            return Err(MapFault::TooMany);
        }
        install(self.alloc, &mut self.pages, first, usize::from(count), text)?;
        self.count += u32::from(count);
        Ok(())
    }

    /// Unmaps `count` pages from `page` on and frees their memory.
    ///
    /// # Errors
    ///
    /// `NotMapped` exactly where one of the pages is not mapped or is past 4,095. The memory is as before then.
    pub fn unmap(&mut self, page: u16, count: u16) -> Result<(), NotMapped>
        ensures can { OnOk result (EachPage (mapped self.old) page count true) }
        ensures in_range { OnOk result (1 ≤ count → InRange page count) }
        ensures bytes { OnOk result (bytes self.new ≡ repaged (bytes self.old) page count None) }
        ensures mapped { OnOk result (mapped self.new ≡ marked (mapped self.old) page count false) }
        ensures texts { OnOk result (texts self.new ≡ marked (texts self.old) page count false) }

        ensures fault { OnErr result (SomePage (mapped self.old) page count false) }
        ensures unchanged { OnErr result (self.new ≡ self.old) }
    {
        let first = usize::from(page);
        let end = first + usize::from(count);
        if !self.all_mapped(first, end) {
            return Err(NotMapped);
        }
        clear(&mut self.pages, first, usize::from(count));
        self.count -= u32::from(count);
        Ok(())
    }

    /// Whether the page is mapped; none past 4,095 is.
    pub fn is_mapped(&self, page: u16) -> bool
        ensures mapped { result ≡ mapped self.now page }
        ensures below { IsTrue result → page < PAGE_COUNT }
    {
        self.maps(usize::from(page))
    }

    /// The little-endian number in the `width` bytes from `addr` on; `width` is 1, 2 or 4.
    ///
    /// # Errors
    ///
    /// `Unmapped` exactly where a byte lies on no mapped page; it names the first.
    pub fn read(&self, addr: u32, width: u8) -> Result<u32, MemFault>
        requires { IsWidth width }
        ensures mapped { OnOk result (AllMapped (bytes self.now) addr width) }
        ensures below { OnOk result (addr + width ≤ MEMORY_BYTES) }
        ensures value { IfOk result (λ value. value ≡ number_at (bytes self.now) addr width) }
        ensures small { IfOk result (λ value. value < 256 ^ width) }
        ensures fault { IfErr result (IsReadFault self.now addr width) }
    {
        let at = addr as usize % PAGE;
        if at + usize::from(width) > PAGE {
            return self.read_across(addr, width);
        }
        match self.page(addr as usize / PAGE) {
            Some(page) => Ok(page.load(at, width)),
            None => Err(MemFault::Unmapped { byte: addr }),
        }
    }

    /// Writes the `width` low bytes of `value` from `addr` on, the lowest first; `width` is 1, 2 or 4.
    ///
    /// # Errors
    ///
    /// `Unmapped` exactly where a byte lies on no mapped page, naming the first; `ReadOnly` exactly where all are
    /// mapped and one is text. Nothing is written then.
    pub fn write(&mut self, addr: u32, width: u8, value: u32) -> Result<(), MemFault>
        requires { IsWidth width }
        ensures can { OnOk result (IsWritable self.old addr width) }
        ensures below { OnOk result (addr + width ≤ MEMORY_BYTES) }
        ensures bytes { OnOk result
            (bytes self.new ≡ written (bytes self.old) addr (take width (to_le_bytes w32 value))) }
        ensures mapped { OnOk result (mapped self.new ≡ mapped self.old) }
        ensures texts { OnOk result (texts self.new ≡ texts self.old) }

        ensures fault { IfErr result (IsWriteFault self.old addr width) }
        ensures unchanged { OnErr result (self.new ≡ self.old) }
    {
        if addr as usize % PAGE + usize::from(width) > PAGE {
            return self.write_bytes(addr, &value.to_le_bytes()[..usize::from(width)]);
        }
        store(&mut self.pages, addr, width, value)
    }

    /// Reads as many bytes as `into` has, from `addr` on.
    ///
    /// # Errors
    ///
    /// `Unmapped` exactly where a byte lies on no mapped page, naming the first; `into` stays as it was then.
    pub fn read_bytes(&self, addr: u32, into: &mut [u8]) -> Result<(), MemFault>
        ensures mapped { OnOk result (AllMapped (bytes self.now) addr (length into.old)) }
        ensures below { OnOk result (1 ≤ length into.old → addr + length into.old ≤ MEMORY_BYTES) }
        ensures value { OnOk result
            ((k : ℕ) → k < length into.new → bytes self.now (addr + k) ≡ Some (slice_index into.new k)) }
        ensures fault { IfErr result (IsReadFault self.now addr (length into.old)) }
        ensures unchanged { OnErr result (into.new ≡ into.old) }
    {
        if let Some(byte) = self.first_unmapped(addr, into.len()) {
            return Err(MemFault::Unmapped { byte });
        }
        let start = addr as usize;
        let mut done = 0;
        while done < into.len() {
            let at = (start + done) % PAGE;
            let end = into.len().min(done + (PAGE - at));
            if let Some(page) = self.page((start + done) / PAGE) {
                page.copy_out(at, &mut into[done..end]);
            }
            done = end;
        }
        Ok(())
    }

    /// Writes the bytes of `from` from `addr` on.
    ///
    /// # Errors
    ///
    /// Those of `write`. Nothing is written then.
    pub fn write_bytes(&mut self, addr: u32, from: &[u8]) -> Result<(), MemFault>
        ensures can { OnOk result (IsWritable self.old addr (length from.now)) }
        ensures below { OnOk result (1 ≤ length from.now → addr + length from.now ≤ MEMORY_BYTES) }
        ensures bytes { OnOk result (bytes self.new ≡ written (bytes self.old) addr from.now) }
        ensures mapped { OnOk result (mapped self.new ≡ mapped self.old) }
        ensures texts { OnOk result (texts self.new ≡ texts self.old) }

        ensures fault { IfErr result (IsWriteFault self.old addr (length from.now)) }
        ensures unchanged { OnErr result (self.new ≡ self.old) }
    {
        if let Some(byte) = self.first_unmapped(addr, from.len()) {
            return Err(MemFault::Unmapped { byte });
        }
        if self.has_text(addr, from.len()) {
            return Err(MemFault::ReadOnly);
        }
        self.fill(addr, from);
        Ok(())
    }

    /// Whether each of `count` addresses from `addr` on can be read: all lie on mapped pages.
    pub fn can_read(&self, addr: u32, count: u32) -> bool
        ensures { MatchBool result (AllMapped (bytes self.now) addr count)
            (AllMapped (bytes self.now) addr count → ⊥) }
    {
        self.first_unmapped(addr, count as usize).is_none()
    }

    /// Whether each of `count` addresses from `addr` on can be written: all lie on mapped pages, and none on text.
    pub fn can_write(&self, addr: u32, count: u32) -> bool
        ensures { MatchBool result (IsWritable self.now addr count) (IsWritable self.now addr count → ⊥) }
    {
        let count = count as usize;
        if self.first_unmapped(addr, count).is_some() {
            return false;
        }
        !self.has_text(addr, count)
    }

    /// Writes the bytes of `from` from `addr` on, to text too.
    pub fn fill(&mut self, addr: u32, from: &[u8])
        requires { AllMapped (bytes self.old) addr (length from.now) }
        ensures bytes { bytes self.new ≡ written (bytes self.old) addr from.now }
        ensures mapped { mapped self.new ≡ mapped self.old }
        ensures texts { texts self.new ≡ texts self.old }
    {
        put_all(&mut self.pages, addr as usize, from);
    }

    /// The page of a number, where it is mapped.
    fn page(&self, number: usize) -> Option<&Page>
        ensures page { option_copied result ≡ page_at self.now number }
        ensures below { IsSome result → number < PAGE_COUNT }
    {
        if number < PAGES {
            self.pages[number].as_ref()
        } else {
            None
        }
    }

    /// Whether the page of a number is mapped.
    fn maps(&self, number: usize) -> bool
        ensures mapped { result ≡ mapped self.now number }
        ensures below { IsTrue result → number < PAGE_COUNT }
    {
        self.page(number).is_some()
    }

    /// Whether the page of a number is text.
    fn is_text(&self, number: usize) -> bool
        ensures { result ≡ texts self.now number }
    {
        match self.page(number) {
            Some(page) => page.is_text(),
            None => false,
        }
    }

    /// Whether one of the pages from `first` up to `end` is mapped.
    fn any_mapped(&self, first: usize, end: usize) -> bool
        ensures { MatchBool result ((page : ℕ) × (first ≤ page) × (page < end) × (mapped self.now page ≡ true))
            ((page : ℕ) → first ≤ page → page < end → mapped self.now page ≡ false) }
    {
        for number in first..end {
            if self.maps(number) {
                return true;
            }
        }
        false
    }

    /// Whether each of the pages from `first` up to `end` is mapped.
    fn all_mapped(&self, first: usize, end: usize) -> bool
        ensures { MatchBool result ((page : ℕ) → first ≤ page → page < end → mapped self.now page ≡ true)
            ((page : ℕ) × (first ≤ page) × (page < end) × (mapped self.now page ≡ false)) }
    {
        for number in first..end {
            if !self.maps(number) {
                return false;
            }
        }
        true
    }

    /// The first of `count` addresses from `addr` on that lies on no mapped page.
    fn first_unmapped(&self, addr: u32, count: usize) -> Option<u32>
        requires { count < 2 ^ 63 }
        ensures first { MatchOption result (AllMapped (bytes self.now) addr count)
            (λ byte. IsFirstUnmapped (bytes self.now) addr count byte) }
        ensures below { IfNone result (1 ≤ count → addr + count ≤ MEMORY_BYTES) }
    {
        let mut at = addr as usize;
        let end = at + count;
        while at < end {
            if !self.maps(at / PAGE) {
                return Some(at as u32);
            }
            at = (at / PAGE + 1) * PAGE;
        }
        None
    }

    /// Whether one of `count` addresses from `addr` on lies on a page of text.
    fn has_text(&self, addr: u32, count: usize) -> bool
        requires { count < 2 ^ 63 }
        ensures { MatchBool result (HasText self.now addr count)
            ((k : ℕ) → addr ≤ k → k < addr + count → texts self.now (k / PAGE_BYTES) ≡ false) }
    {
        let mut at = addr as usize;
        let end = at + count;
        while at < end {
            if self.is_text(at / PAGE) {
                return true;
            }
            at = (at / PAGE + 1) * PAGE;
        }
        false
    }

    /// `read` where the bytes lie on two pages.
    fn read_across(&self, addr: u32, width: u8) -> Result<u32, MemFault>
        requires { IsWidth width }
        ensures mapped { OnOk result (AllMapped (bytes self.now) addr width) }
        ensures below { OnOk result (addr + width ≤ MEMORY_BYTES) }
        ensures value { IfOk result (λ value. value ≡ number_at (bytes self.now) addr width) }
        ensures small { IfOk result (λ value. value < 256 ^ width) }
        ensures fault { IfErr result (IsReadFault self.now addr width) }
    {
        let mut buffer = [0; 4];
        self.read_bytes(addr, &mut buffer[..usize::from(width)])?;
        Ok(number(&buffer, 0, width))
    }
}
