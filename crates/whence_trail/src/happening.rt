//! An event of a run with the instruction that gave it.
ghost use Rattle.std.specs.Prelude.{◌≡◌};
ghost use Rattle.whence_trail.specs.Happenings.{address_of as address_by};

use pl_event::Kind;

/// Which event it is, and which instruction gave it.
#[derive(Clone, Copy, Debug, PartialEq, Eq)]
pub struct Origin {
    pub hart: u8,
    /// The number of the event in its hart, from 1. Notices have none.
    pub number: u32,
    /// The address of the instruction.
    pub pc: u32,
}

/// An event of a run, and where it came from.
#[derive(Clone, Copy, Debug, PartialEq, Eq)]
pub struct Happening {
    pub origin: Origin,
    pub kind: Kind,
}

/// The address that an event is about, and the first one of a range of bytes. A range of pages has none.
pub fn address_of(kind: Kind) -> Option<u32>
    ensures { result ≡ address_by kind }
{
    match kind {
        Kind::Ld { addr, .. } | Kind::St { addr, .. } => Some(addr),
        Kind::Al { addr, .. } | Kind::Fr { addr, .. } => Some(addr),
        Kind::Rd { addr, .. } | Kind::Wr { addr, .. } => Some(addr),
        Kind::Bf { addr } | Kind::Ft { addr, .. } => Some(addr),
        Kind::Op { .. } | Kind::Mv { .. } | Kind::Im { .. } | Kind::Br { .. } => None,
        Kind::Jr { .. } | Kind::Mp { .. } | Kind::Um { .. } | Kind::Ex => None,
    }
}
