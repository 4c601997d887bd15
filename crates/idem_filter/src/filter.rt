//! The slots, and the calls on them.
use std::marker::Model;

/// How many slots there are.
const SLOTS: usize = 32;

/// How many bytes a word has: the checks of one word share a slot.
const WORD_BYTES: u32 = 4;

/// The access that was checked: the address of its first byte, and its bytes.
#[derive(Clone, Copy, Debug)]
pub(crate) struct Check {
    pub(crate) addr: u32,
    pub(crate) width: u8,
}

/// The checks that were entered, 32 at most.
#[derive(Clone, Copy, Debug)]
pub struct Filter {
    slots: [Option<Check>; 32],
}

impl Model for Filter {
    ghost use Rattle.idem_filter.specs.Filter.{Slots};

    ghost Value = { Slots };

    ghost view = { λ f. f.slots };

    ghost inverse = { λ slots. record { slots = slots } };
}

impl Filter {
    ghost use Rattle.std.specs.Prelude.{◌≡◌, ℕ, false};
    ghost use Rattle.idem_filter.specs.Filter.{empty, hits, entered, hits_after};

    /// No check was entered.
    pub fn new() -> Filter
        ensures slots { result ≡ empty }
        ensures none { (addr width : ℕ) → hits result addr width ≡ false }
    {
        Filter {
            slots: [None; SLOTS],
        }
    }

    /// Whether the slot of this address holds the check of `width` bytes from this address on.
    #[inline]
    pub fn hit(&self, addr: u32, width: u8) -> bool
        ensures { result ≡ hits self.now addr width }
    {
        let slot = self.slots[(addr / WORD_BYTES) as usize % SLOTS];
        match slot {
            Some(check) => check.addr == addr && check.width == width,
            None => false,
        }
    }

    /// Puts the check of `width` bytes from this address on into the slot, in place of what was there.
    #[inline]
    pub fn enter(&mut self, addr: u32, width: u8)
        ensures slots { self.new ≡ entered self.old addr width }
        ensures hits { (other bytes : ℕ) → hits self.new other bytes ≡ hits_after self.old addr width other bytes }
    {
        self.slots[(addr / WORD_BYTES) as usize % SLOTS] = Some(Check { addr, width });
    }

    /// Empties all slots.
    pub fn flush(&mut self)
        ensures slots { self.new ≡ empty }
        ensures none { (addr width : ℕ) → hits self.new addr width ≡ false }
    {
        self.slots = [None; SLOTS];
    }
}
