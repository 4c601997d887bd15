//! MemCheck: reports bad accesses, as AddrCheck does, and uses of bytes that nothing has written.
//!
//! Bit 0 of a nibble says that the byte may be touched, bit 1 that it is defined. A register's mask marks its bytes
//! that are not defined: a load marks them where a byte may be touched and is not defined, and a store takes the marks
//! along. A byte that may not be touched is reported at the access itself, so its load marks nothing.
#![tactic(auto)]

ghost use Rattle.std.specs.Prelude.{◌≡◌};
ghost use Rattle.memcheck.specs.MemRules.{is_addressable as is_addressable_nibble, is_undefined as is_undefined_nibble, with_defined as with_defined_bit, mem_rules};

use lifeguard::{CheckedRegs, Lifeguard, Name, RangeKind, call_registers};
use pl_event::{Kind, PageKind};

/// Reports bad accesses and uses of undefined bytes.
#[derive(Clone, Copy, Debug, PartialEq, Eq)]
pub struct MemCheck;

/// Whether a byte may be touched.
#[inline]
fn is_addressable(nibble: u8) -> bool
    ensures { result ≡ is_addressable_nibble nibble }
{
    nibble % 2 == 1
}

/// Whether a byte may be touched and was not written.
#[inline]
fn is_undefined(nibble: u8) -> bool
    ensures { result ≡ is_undefined_nibble nibble }
{
    is_addressable(nibble) && nibble / 2 % 2 == 0
}

/// The nibble with this bit 1.
#[inline]
fn with_defined(nibble: u8, defined: bool) -> u8
    ensures { result ≡ with_defined_bit nibble defined }
{
    let rest = nibble % 2 + nibble / 4 * 4;
    if defined { rest + 2 } else { rest }
}

impl Lifeguard for MemCheck {
    ghost use Rattle.memcheck.specs.Laws.{mem_lawful};

    ghost rules = { λ _. mem_rules };

    ghost lawful = { λ _. mem_lawful };

    #[inline]
    fn name(&self) -> Name {
        Name::Mem
    }

    #[inline]
    fn page_state(&self, kind: PageKind) -> u8 {
        match kind {
            PageKind::Data => 3,
            PageKind::Heap => 0,
            PageKind::Stack => 1,
        }
    }

    #[inline]
    fn load_bit(&self, nibble: u8) -> bool {
        is_undefined(nibble)
    }

    #[inline]
    fn store_nibble(&self, old: u8, bit: bool) -> u8 {
        with_defined(old, !bit)
    }

    #[inline]
    fn range_state(&self, kind: RangeKind, old: u8) -> u8 {
        match kind {
            RangeKind::Al => 1,
            RangeKind::Fr => 0,
            RangeKind::Rd => with_defined(old, true),
        }
    }

    #[inline]
    fn bad_access(&self, nibble: u8) -> bool {
        !is_addressable(nibble)
    }

    #[inline]
    fn bad_value(&self, nibble: u8) -> bool {
        is_undefined(nibble)
    }

    #[inline]
    fn checked(&self, kind: &Kind) -> CheckedRegs {
        match *kind {
            Kind::Ld { rb, .. } | Kind::St { rb, .. } => CheckedRegs {
                count: 1,
                regs: [rb, 0, 0],
            },
            Kind::Br { r1, r2 } => CheckedRegs {
                count: 2,
                regs: [r1, r2, 0],
            },
            Kind::Jr { rs, .. } => CheckedRegs {
                count: 1,
                regs: [rs, 0, 0],
            },
            _ => call_registers(kind),
        }
    }

    #[inline]
    fn joins(&self, a: u8, b: u8) -> u8 {
        if a == 0 && b == 0 { 0 } else { 15 }
    }
}
