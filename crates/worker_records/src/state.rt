//! What a worker keeps beside its seat.
ghost use Rattle.std.specs.Prelude.{◌≡◌, ℕ, ◌<◌, ◌≤◌, None, OnErr, OnOk, slice_index};
ghost use Rattle.pl_base.specs.declared.layout.TheConstants.{REGISTERS};
ghost use Rattle.inherit_track.specs.declared.state.RegState.TheVariants as reg;
ghost use Rattle.inherit_track.specs.States.{state_in};
ghost use Rattle.worker_laws.specs.Kept.{HoldsNothing, first_parts};
ghost use Rattle.worker_records.specs.States.{parts_of, spare};

use idem_filter::Filter;
use inherit_track::{Inherit, RegState};
use lifeguard::Report;
use meta_lookaside::LookAside;
use pl_base::NoMemory;
use pl_base::layout::REGISTERS;
use std::alloc::Global;

/// What a worker keeps beside its seat.
#[derive(Drop)]
pub struct State {
    /// How many records are taken.
    pub taken: u32,
    pub tracker: Inherit,
    pub look: LookAside,
    pub filter: Filter,
    pub checks: u64,
    pub misses: u64,
    pub reports: Vec<Report>,
}

/// What was found at the bytes of an event.
#[derive(Clone, Copy)]
pub struct Found {
    /// The first byte that may not be touched.
    pub touched: Option<u32>,
    /// The first byte that may not go outside.
    pub sent: Option<u32>,
}

impl Found {
    /// Nothing was found.
    pub const NONE: Found = Found {
        touched: None,
        sent: None,
    };

    /// This was found at bytes that are touched.
    pub fn touched(touched: Option<u32>) -> Found
        ensures { result ≡ record { touched = touched; sent = None } }
    {
        Found {
            touched,
            sent: None,
        }
    }
}

impl State {
    /// No record is taken. No memory is taken.
    pub fn new(alloc: Global) -> State
        ensures taken { result.taken ≡ 0 }
        ensures parts { parts_of result ≡ first_parts }
        ensures spare { spare result ≡ 0 }
    {
        State {
            taken: 0,
            tracker: Inherit::new(),
            look: LookAside::new(),
            filter: Filter::new(),
            checks: 0,
            misses: 0,
            reports: Vec::new(alloc),
        }
    }

    /// Makes room for so many reports. Without memory nothing is changed, and there was less room.
    pub fn make_room(&mut self, room: usize) -> Result<(), NoMemory>
        ensures room { OnOk result (room ≤ spare self.new) }
        ensures full { OnErr result (spare self.old < room) }
        ensures more { spare self.old ≤ spare self.new }
        ensures items { self.new.reports.items ≡ self.old.reports.items }
        ensures others { self.new ≡ record self.old { reports = self.new.reports } }
    {
        self.reports.reserve(room)?;
        Ok(())
    }

    // The mask of a register, where none is held.
    fn known_mask(&self, r: u8) -> u8
        requires nothing { HoldsNothing (parts_of self.now) }
        requires register { r < REGISTERS }
        ensures { state_in self.now.tracker r ≡ reg.Known result }
    {
        match self.tracker.state(r) {
            RegState::Known(mask) => mask,
            RegState::Held(_) => unreachable!(),
        }
    }

    /// The masks of the registers, where none is held.
    pub fn masks(&self) -> [u8; 34]
        requires { HoldsNothing (parts_of self.now) }
        ensures { (r : ℕ) → r < REGISTERS → state_in self.now.tracker r ≡ reg.Known (slice_index result r) }
    {
        let mut masks = [0; 34];
        for r in 0..REGISTERS {
            masks[r as usize] = self.known_mask(r);
        }
        masks
    }
}
