//! The plain monitor: the rules over all events, one by one.
ghost use Rattle.std.specs.Prelude.{◌≡◌, ℕ, ◌<◌, ◌≤◌, ◌+◌, ◌*◌, ◌++◌, ◌∷◌, [], List, All, IfOk, OnOk, OnErr};
ghost use Rattle.pl_base.specs.declared.layout.TheConstants.{PAGE_BYTES, PAGE_COUNT, REGISTERS, MAX_RECORDS};
ghost use Rattle.pl_event.specs.Valid.{IsValidEvent};
ghost use Rattle.pl_event.specs.declared.event.Event.{Event};
ghost use Rattle.pl_event.specs.declared.log.PageRun.{PageRun};
ghost use Rattle.lifeguard.specs.Pages.{IsPage};
ghost use Rattle.lifeguard.specs.Plain.{plain_result};
ghost use Rattle.lifeguard.specs.Shadow.{Represents, IsUnchanged, state_of, place_of, bytes_of};

use crate::guard::Lifeguard;
use crate::report::Report;
use crate::shadow::Shadow;
use pl_base::NoMemory;
use pl_event::{Event, PageRun};
use std::alloc::Global;

/// The plain rules of a lifeguard, applied event by event.
#[derive(Drop)]
pub struct PlainMonitor<L: Lifeguard> {
    guard: L,
    harts: u8,
    shadow: Shadow,
    ghost few: { harts ≤ 8 },
}

impl<L: Lifeguard> PlainMonitor<L> {
    /// The state before the first event of `harts` harts, 1 to 8, with these pages mapped.
    pub fn new(
        alloc: Global,
        l: L,
        harts: u8,
        pages: &[PageRun],
    ) -> Result<PlainMonitor<L>, NoMemory>
        requires few { harts ≤ 8 }
        requires inside { All (λ run. run.first + run.count ≤ PAGE_COUNT) pages.now }
        ensures stands { IfOk result (λ monitor. Represents (L.rules l) pages.now [] monitor.shadow) }
        ensures guard { IfOk result (λ monitor. monitor.guard ≡ l) }
        ensures harts { IfOk result (λ monitor. monitor.harts ≡ harts) }
    {
        let shadow = Shadow::new(alloc, l, pages)?;
        Ok(PlainMonitor {
            guard: l,
            harts,
            shadow,
        })
    }

    /// The lifeguard.
    pub fn guard(&self) -> L
        ensures { result ≡ self.now.guard }
    {
        self.guard
    }

    /// How many harts the run has, at most 8.
    pub fn harts(&self) -> u8
        ensures harts { result ≡ self.now.harts }
        ensures few { result ≤ 8 }
    {
        self.harts
    }

    /// Applies one event that is valid for the run's number of harts. At most 2,000,000 events are applied. Without
    /// memory nothing changes.
    #[inline]
    pub fn apply(&mut self, event: &Event) -> Result<(), NoMemory>
        requires valid { IsValidEvent event.now self.old.harts }
        requires room { place_of self.old.shadow < MAX_RECORDS }
        ensures stands { OnOk result ((pages : List PageRun) (events : List Event) →
            Represents (L.rules self.old.guard) pages events self.old.shadow
            → Represents (L.rules self.old.guard) pages (events ++ event.now ∷ []) self.new.shadow) }
        ensures place { OnOk result (place_of self.new.shadow ≡ place_of self.old.shadow + 1) }
        ensures err { OnErr result (IsUnchanged self.old.shadow self.new.shadow) }
        ensures guard { self.new.guard ≡ self.old.guard }
        ensures harts { self.new.harts ≡ self.old.harts }
    {
        self.shadow.apply(self.guard, event)
    }

    /// The reports so far, in order.
    pub fn reports(&self) -> &[Report]
        ensures { result.now ≡ (state_of self.now.shadow).reports }
    {
        self.shadow.reports()
    }

    /// The mask of a register, below 34, of a hart of the run.
    #[inline]
    pub fn mask(&self, hart: u8, reg: u8) -> u8
        requires hart { hart < self.now.harts }
        requires register { reg < REGISTERS }
        ensures { result ≡ (state_of self.now.shadow).masks hart reg }
    {
        self.shadow.mask(hart, reg)
    }

    /// The cells of a page, below 4,096, or none: its nibble for each byte, or 8 or more for a byte of no mapped page.
    /// Where there are no cells no byte of the page is mapped.
    #[inline]
    pub fn page(&self, page: u16) -> &[u8]
        requires { page < PAGE_COUNT }
        ensures bytes { (a : ℕ) → a < PAGE_BYTES →
            bytes_of result.now a ≡ (state_of self.now.shadow).bytes (page * PAGE_BYTES + a) }
        ensures page { IsPage result.now }
    {
        self.shadow.page(page)
    }

    /// The nibble of a byte; none exactly for a byte of no mapped page.
    #[inline]
    pub fn byte(&self, addr: u32) -> Option<u8>
        ensures { result ≡ (state_of self.now.shadow).bytes addr }
    {
        self.shadow.byte(addr)
    }
}
