//! The shadow state of a run.
ghost use Rattle.std.specs.Prelude.{◌≡◌, ◌<◌, ◌≤◌, ◌+◌, ◌*◌, ℕ, [], All, OnOk, OnErr, IfOk, vec_len, slice_index};
ghost use Rattle.pl_base.specs.declared.layout.TheConstants.{PAGE_BYTES, PAGE_COUNT, MAX_HARTS, REGISTERS, MAX_RECORDS};

use crate::guard::Lifeguard;
use crate::masks::{Masks, clear_masks, mask_at};
use crate::page::Page;
use crate::pages::{byte_in, map_runs, unmapped_pages};
use crate::report::{EventPlace, Report};
use crate::rules::{change_bytes, change_masks, make_room_for, report_event};
use pl_base::NoMemory;
use pl_base::layout::PAGE_COUNT;
use pl_event::{Event, PageRun};
use std::alloc::Global;

/// The shadow state of a run: the nibble of each mapped byte, the mask of each register, and the reports.
#[derive(Drop)]
pub struct Shadow {
    /// The cells of each page of memory.
    pages: Vec<Page>,
    masks: Masks,
    reports: Vec<Report>,
    /// How many events were applied, and of each hart.
    place: u32,
    counts: [u32; 8],
    ghost whole: { vec_len pages ≡ PAGE_COUNT },
    ghost counted: { (h : ℕ) → slice_index counts h ≤ place },
}

impl Shadow {
    ghost use Rattle.pl_event.specs.Valid.{HasValidFields};
    ghost use Rattle.lifeguard.specs.Pages.{IsPage};
    ghost use Rattle.lifeguard.specs.State.{first_state};
    ghost use Rattle.lifeguard.specs.Shadow.{state_of, place_of, bytes_of, masks_of, IsStep, IsUnchanged, Begins};

    /// The state before the first event, with these pages mapped.
    pub fn new<L: Lifeguard>(alloc: Global, guard: L, runs: &[PageRun]) -> Result<Shadow, NoMemory>
        requires inside { All (λ run. run.first + run.count ≤ PAGE_COUNT) runs.now }
        ensures { IfOk result (Begins (L.rules guard) runs.now) }
    {
        let mut pages = unmapped_pages(alloc, PAGE_COUNT as usize)?;
        map_runs(guard, &mut pages, runs)?;
        Ok(Shadow {
            pages,
            masks: clear_masks(),
            reports: Vec::new(alloc),
            place: 0,
            counts: [0; 8],
        })
    }

    /// Applies an event of a hart below 8. Without memory nothing that shows changes.
    #[inline]
    pub fn apply<L: Lifeguard>(&mut self, guard: L, event: &Event) -> Result<(), NoMemory>
        requires hart { event.now.hart < MAX_HARTS }
        requires valid { HasValidFields event.now.kind }
        requires room { place_of self.old < MAX_RECORDS }
        ensures ok { OnOk result (IsStep (L.rules guard) event.now self.old self.new) }
        ensures err { OnErr result (IsUnchanged self.old self.new) }
    {
        let hart = event.hart;
        let kind = &event.kind;
        let at = EventPlace {
            place: self.place + 1,
            hart,
            number: self.counts[hart as usize] + 1,
        };
        make_room_for(&mut self.pages, kind)?;
        report_event(guard, &self.pages, &self.masks, &mut self.reports, at, kind)?;
        change_masks(guard, &self.pages, &mut self.masks, hart, kind);
        change_bytes(guard, &self.masks, &mut self.pages, hart, kind);
        self.place = at.place;
        self.counts[hart as usize] = at.number;
        Ok(())
    }

    /// The reports so far, in order.
    pub fn reports(&self) -> &[Report]
        ensures { result.now ≡ (state_of self.now).reports }
    {
        self.reports.as_slice()
    }

    /// The mask of a register below 34 of a hart below 8.
    #[inline]
    pub fn mask(&self, hart: u8, reg: u8) -> u8
        requires hart { hart < MAX_HARTS }
        requires register { reg < REGISTERS }
        ensures { result ≡ (state_of self.now).masks hart reg }
    {
        mask_at(&self.masks, hart, reg)
    }

    /// The cells of a page, below 4,096, or none: its nibble for each byte, or 8 or more for a byte of no mapped page.
    /// Where there are no cells no byte of the page is mapped.
    #[inline]
    pub fn page(&self, page: u16) -> &[u8]
        requires { page < PAGE_COUNT }
        ensures bytes { (a : ℕ) → a < PAGE_BYTES →
            bytes_of result.now a ≡ (state_of self.now).bytes (page * PAGE_BYTES + a) }
        ensures page { IsPage result.now }
    {
        self.pages[page as usize].cells()
    }

    /// The nibble of a byte; none exactly for a byte of no mapped page.
    #[inline]
    pub fn byte(&self, addr: u32) -> Option<u8>
        ensures { result ≡ (state_of self.now).bytes addr }
    {
        byte_in(&self.pages, addr)
    }
}
