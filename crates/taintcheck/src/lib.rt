//! TaintCheck: reports each register with bytes from outside that a jump or a kernel call uses.
//!
//! It looks at bit 2 of a nibble alone, which says that the byte came from outside. The mark goes with each copy: from
//! bytes to a register's mask by a load, from two masks to all of a third by an operation, and back by a store.
#![tactic(auto)]

ghost use Rattle.taintcheck.specs.TaintRules.{taint_rules};

use lifeguard::{CheckedRegs, Lifeguard, Name, RangeKind, call_registers};
use pl_event::{Kind, PageKind};

/// Reports uses of bytes from outside.
#[derive(Clone, Copy, Debug, PartialEq, Eq)]
pub struct TaintCheck;

impl Lifeguard for TaintCheck {
    ghost use Rattle.taintcheck.specs.Laws.{taint_lawful};

    ghost rules = { λ _. taint_rules };

    ghost lawful = { λ _. taint_lawful };

    #[inline]
    fn name(&self) -> Name {
        Name::Taint
    }

    #[inline]
    fn page_state(&self, _kind: PageKind) -> u8 {
        0
    }

    #[inline]
    fn load_bit(&self, nibble: u8) -> bool {
        nibble / 4 % 2 == 1
    }

    #[inline]
    fn store_nibble(&self, _old: u8, bit: bool) -> u8 {
        if bit { 4 } else { 0 }
    }

    #[inline]
    fn range_state(&self, kind: RangeKind, old: u8) -> u8 {
        match kind {
            RangeKind::Al | RangeKind::Fr => old,
            RangeKind::Rd => 4,
        }
    }

    #[inline]
    fn bad_access(&self, _nibble: u8) -> bool {
        false
    }

    #[inline]
    fn bad_value(&self, _nibble: u8) -> bool {
        false
    }

    #[inline]
    fn checked(&self, kind: &Kind) -> CheckedRegs {
        match *kind {
            Kind::Jr { rs, .. } => CheckedRegs {
                count: 1,
                regs: [rs, 0, 0],
            },
            _ => call_registers(kind),
        }
    }

    #[inline]
    fn joins(&self, a: u8, b: u8) -> u8 {
        if a == 0 && b == 0 { 0 } else { 15 }
    }
}
