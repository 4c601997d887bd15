//! The slots, and the calls on them.
use std::marker::Model;

/// How many slots there are.
const SLOTS: usize = 16;

/// A page and its frame.
#[derive(Clone, Copy, Debug)]
pub(crate) struct Entry {
    pub(crate) page: u16,
    pub(crate) frame: u16,
}

/// The frames of pages that were looked up before, 16 at most.
#[derive(Clone, Copy, Debug)]
pub struct LookAside {
    slots: [Option<Entry>; 16],
}

impl Model for LookAside {
    ghost use Rattle.meta_lookaside.specs.LookAside.{Slots};

    ghost Value = { Slots };

    ghost view = { λ l. l.slots };

    ghost inverse = { λ slots. record { slots = slots } };
}

impl LookAside {
    ghost use Rattle.std.specs.Prelude.{◌≡◌, ℕ, None};
    ghost use Rattle.meta_lookaside.specs.LookAside.{empty, found, entered, found_after};

    /// No page has an entry.
    pub fn new() -> LookAside
        ensures slots { result ≡ empty }
        ensures none { (page : ℕ) → found result page ≡ None }
    {
        LookAside {
            slots: [None; SLOTS],
        }
    }

    /// The frame that was entered for this page; none exactly where the page's slot does not hold the page.
    #[inline]
    pub fn find(&self, page: u16) -> Option<u16>
        ensures { result ≡ found self.now page }
    {
        let slot = self.slots[page as usize % SLOTS];
        match slot {
            Some(entry) if entry.page == page => Some(entry.frame),
            _ => None,
        }
    }

    /// Puts the page and its frame into the page's slot, in place of what was there.
    #[inline]
    pub fn enter(&mut self, page: u16, frame: u16)
        ensures slots { self.new ≡ entered self.old page frame }
        ensures found { (other : ℕ) → found self.new other ≡ found_after self.old page frame other }
    {
        self.slots[page as usize % SLOTS] = Some(Entry { page, frame });
    }

    /// Empties all slots.
    pub fn flush(&mut self)
        ensures slots { self.new ≡ empty }
        ensures none { (page : ℕ) → found self.new page ≡ None }
    {
        self.slots = [None; SLOTS];
    }
}
