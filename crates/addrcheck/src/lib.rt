//! AddrCheck: reports each access to a byte that may not be touched, each free of no block, and each fault at a byte of
//! no mapped page.
//!
//! It looks at bit 0 of a nibble alone, which says that the byte may be touched: data and stack pages are from the
//! start, a heap byte while it lies in a live block. All masks stay 0.
#![tactic(auto)]

ghost use Rattle.addrcheck.specs.AddrRules.{addr_rules};

use lifeguard::{CheckedRegs, Lifeguard, Name, RangeKind};
use pl_event::{Kind, PageKind};

/// Reports bad accesses.
#[derive(Clone, Copy, Debug, PartialEq, Eq)]
pub struct AddrCheck;

impl Lifeguard for AddrCheck {
    ghost use Rattle.addrcheck.specs.Laws.{addr_lawful};

    ghost rules = { λ _. addr_rules };

    ghost lawful = { λ _. addr_lawful };

    #[inline]
    fn name(&self) -> Name {
        Name::Addr
    }

    #[inline]
    fn page_state(&self, kind: PageKind) -> u8 {
        match kind {
            PageKind::Data | PageKind::Stack => 1,
            PageKind::Heap => 0,
        }
    }

    #[inline]
    fn load_bit(&self, _nibble: u8) -> bool {
        false
    }

    #[inline]
    fn store_nibble(&self, old: u8, _bit: bool) -> u8 {
        old
    }

    #[inline]
    fn range_state(&self, kind: RangeKind, old: u8) -> u8 {
        match kind {
            RangeKind::Al => 1,
            RangeKind::Fr => 0,
            RangeKind::Rd => old,
        }
    }

    #[inline]
    fn bad_access(&self, nibble: u8) -> bool {
        nibble % 2 == 0
    }

    #[inline]
    fn bad_value(&self, _nibble: u8) -> bool {
        false
    }

    #[inline]
    fn checked(&self, _kind: &Kind) -> CheckedRegs {
        CheckedRegs {
            count: 0,
            regs: [0; 3],
        }
    }

    #[inline]
    fn joins(&self, _a: u8, _b: u8) -> u8 {
        0
    }
}
