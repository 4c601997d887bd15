//! What makes a lifeguard: the trait of its rules.
ghost use Rattle.std.specs.Prelude.{◌≡◌, ◌<◌, ◌≤◌, ℕ, take, slice_index};
ghost use Rattle.lifeguard.specs.Rules.{Rules, KeepsLaws};
ghost use Rattle.lifeguard.specs.Plain.{load_bits, mask_from as mask_of_bits, bit_value as value_of_bit};

use pl_base::LoadWidth;
use pl_event::{Kind, PageKind};

/// Which lifeguard it is.
#[derive(Clone, Copy, Debug, PartialEq, Eq)]
pub enum Name {
    /// Bad accesses.
    Addr,
    /// Bytes from outside.
    Taint,
    /// Bad accesses and undefined bytes.
    Mem,
}

impl Name {
    ghost use Rattle.std.specs.Prelude.{◌≡◌};
    ghost use Rattle.lifeguard.specs.Words.{guard_word};

    /// The word that names it.
    pub fn word(self) -> &'static str
        ensures { result.now ≡ guard_word self }
    {
        match self {
            Name::Addr => "addrcheck",
            Name::Taint => "taintcheck",
            Name::Mem => "memcheck",
        }
    }
}

/// An event that changes the nibbles of a range of bytes.
#[derive(Clone, Copy, Debug, PartialEq, Eq)]
pub enum RangeKind {
    /// A block is taken.
    Al,
    /// A block is freed.
    Fr,
    /// Bytes come from outside.
    Rd,
}

/// Registers whose masks are checked: the first `count` of `regs`, in order.
#[derive(Clone, Copy, Debug, PartialEq, Eq)]
pub struct CheckedRegs {
    /// At most 3.
    pub count: u8,
    pub regs: [u8; 3],
}

/// What a lifeguard makes of nibbles below 8 and masks below 16. No call takes memory.
pub trait Lifeguard: Copy {
    /// All of it, as one record of functions.
    ghost rules: { Self → Rules };

    fn name(&self) -> Name
        ensures { result ≡ (rules self.now).name };

    /// The nibble of each byte of a page at the start, and of a data page when it is mapped.
    fn page_state(&self, kind: PageKind) -> u8
        ensures { result ≡ (rules self.now).page_state kind };

    /// Whether a loaded byte marks its bit of the register.
    fn load_bit(&self, nibble: u8) -> bool
        requires { nibble < 8 }
        ensures { result ≡ (rules self.now).load_bit nibble };

    /// The nibble of a byte that is stored from a register's byte, marked or not.
    fn store_nibble(&self, old: u8, bit: bool) -> u8
        requires { old < 8 }
        ensures { result ≡ (rules self.now).store_nibble old bit };

    /// The nibble of a byte of a range that is taken, freed or read from outside.
    fn range_state(&self, kind: RangeKind, old: u8) -> u8
        requires { old < 8 }
        ensures { result ≡ (rules self.now).range_state kind old };

    /// Whether a byte with this nibble may not be touched.
    fn bad_access(&self, nibble: u8) -> bool
        requires { nibble < 8 }
        ensures { result ≡ (rules self.now).bad_access nibble };

    /// Whether a byte with this nibble may not go outside.
    fn bad_value(&self, nibble: u8) -> bool
        requires { nibble < 8 }
        ensures { result ≡ (rules self.now).bad_value nibble };

    /// The registers whose masks are checked at this kind of event.
    fn checked(&self, kind: &Kind) -> CheckedRegs
        ensures few { result.count ≤ 3 }
        ensures regs { take result.count result.regs ≡ (rules self.now).checked kind.now };

    /// The mask of a register that is computed from two.
    fn joins(&self, a: u8, b: u8) -> u8
        ensures { result ≡ (rules self.now).joins a b };

    /// It keeps the laws of lifeguards.
    ghost lawful: { (guard : Self) → KeepsLaws (rules guard) };
}

/// The mask of a register into which bytes with these nibbles, below 8, are loaded, the lowest first; a width of fewer
/// bytes looks at the first ones alone.
#[inline]
pub fn load_mask<L: Lifeguard>(l: &L, nibbles: [u8; 4], width: LoadWidth) -> u8
    requires { (i : ℕ) → i < 4 → slice_index nibbles i < 8 }
    ensures value { result
        ≡ load_bits width ((L.rules l.now).load_bit (slice_index nibbles 0))
        ((L.rules l.now).load_bit (slice_index nibbles 1))
        ((L.rules l.now).load_bit (slice_index nibbles 2)) ((L.rules l.now).load_bit (slice_index nibbles 3)) }
    ensures small { result < 16 }
{
    let [a, b, c, d] = nibbles;
    match width {
        LoadWidth::B => mask_from(l.load_bit(a), l.load_bit(a), l.load_bit(a), l.load_bit(a)),
        LoadWidth::H => mask_from(l.load_bit(a), l.load_bit(b), l.load_bit(b), l.load_bit(b)),
        LoadWidth::W => mask_from(l.load_bit(a), l.load_bit(b), l.load_bit(c), l.load_bit(d)),
        LoadWidth::Bu => mask_from(l.load_bit(a), false, false, false),
        LoadWidth::Hu => mask_from(l.load_bit(a), l.load_bit(b), false, false),
    }
}

/// The mask with these bits, the lowest first.
#[inline]
fn mask_from(a: bool, b: bool, c: bool, d: bool) -> u8
    ensures value { result ≡ mask_of_bits a b c d }
    ensures small { result < 16 }
{
    bit_value(a) + 2 * bit_value(b) + 4 * bit_value(c) + 8 * bit_value(d)
}

#[inline]
fn bit_value(bit: bool) -> u8
    ensures value { result ≡ value_of_bit bit }
    ensures small { result ≤ 1 }
{
    if bit { 1 } else { 0 }
}
