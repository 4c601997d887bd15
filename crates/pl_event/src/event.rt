//! Events: what happened on one hart.
ghost use Rattle.std.specs.Prelude.{◌≡◌, ◌↔◌, ◌<◌, IsTrue};
ghost use Rattle.pl_event.specs.Alerts.{is_alert_kind};
ghost use Rattle.pl_event.specs.Valid.{IsValidEvent, HasValidFields, IsRegister, IsAligned, IsByteRange, IsPageRange};

use pl_base::layout::{MAX_CALL_BYTES, MAX_MAPPED_PAGES, MEMORY_BYTES, PAGE_COUNT, REGISTERS};
use pl_base::{FaultCause, LoadWidth, StoreWidth};

/// What happened. Registers are from 0 to 33, the last two hidden; addresses are below 2^24 except where a kind says
/// otherwise; lengths are from 1 to 65,536 bytes; pages are from 0 to 4095, counts of pages from 1 to 512.
#[derive(Clone, Copy, Debug, PartialEq, Eq)]
pub enum Kind {
    /// A load to `rd` from `addr`, a multiple of the width, through base register `rb`.
    Ld {
        width: LoadWidth,
        rd: u8,
        rb: u8,
        addr: u32,
    },
    /// A store of `rv` to `addr`, a multiple of the width, through base register `rb`.
    St {
        width: StoreWidth,
        rv: u8,
        rb: u8,
        addr: u32,
    },
    /// `rd` was computed from `r1` and `r2`.
    Op {
        rd: u8,
        r1: u8,
        r2: u8,
    },
    /// `rd` is a copy of `rs`.
    Mv {
        rd: u8,
        rs: u8,
    },
    /// `rd` is a constant.
    Im {
        rd: u8,
    },
    /// A branch on `r1` and `r2`, taken or not.
    Br {
        r1: u8,
        r2: u8,
    },
    /// A jump to `rs`; `rd` has the link.
    Jr {
        rd: u8,
        rs: u8,
    },
    /// A block of `len` bytes was allocated.
    Al {
        addr: u32,
        len: u32,
    },
    /// A block of `len` bytes was freed.
    Fr {
        addr: u32,
        len: u32,
    },
    /// A free of no block, at any address of 32 bits.
    Bf {
        addr: u32,
    },
    /// Pages were mapped.
    Mp {
        page: u16,
        count: u16,
    },
    /// Pages were unmapped.
    Um {
        page: u16,
        count: u16,
    },
    /// Bytes came from outside.
    Rd {
        addr: u32,
        len: u32,
    },
    /// Bytes went outside.
    Wr {
        addr: u32,
        len: u32,
    },
    /// The hart ended.
    Ex,
    /// The hart faulted, at any address of 32 bits.
    Ft {
        cause: FaultCause,
        addr: u32,
    },
}

/// What happened on one hart.
#[derive(Clone, Copy, Debug, PartialEq, Eq)]
pub struct Event {
    /// The hart's number, from 0.
    pub hart: u8,
    pub kind: Kind,
}

/// Whether an event of this kind is an alert: a block allocated or freed, pages mapped or unmapped, bytes from or to
/// the outside. Other harts are told of these by notices.
pub fn is_alert(kind: &Kind) -> bool
    ensures { result ≡ is_alert_kind kind.now }
{
    matches!(
        kind,
        Kind::Al { .. }
            | Kind::Fr { .. }
            | Kind::Mp { .. }
            | Kind::Um { .. }
            | Kind::Rd { .. }
            | Kind::Wr { .. }
    )
}

/// Whether the event can be one of a run of `harts` harts: its hart is one of them, each field is in its range, a
/// load's or a store's address is a multiple of its width, and no range of bytes or pages passes the end of memory.
pub fn valid_event(event: &Event, harts: u8) -> bool
    ensures { IsTrue result ↔ IsValidEvent event.now harts }
{
    event.hart < harts && has_valid_fields(event.kind)
}

fn has_valid_fields(kind: Kind) -> bool
    ensures { IsTrue result ↔ HasValidFields kind }
{
    match kind {
        Kind::Ld {
            width,
            rd,
            rb,
            addr,
        } => is_register(rd) && is_register(rb) && is_aligned(addr, width.bytes()),
        Kind::St {
            width,
            rv,
            rb,
            addr,
        } => is_register(rv) && is_register(rb) && is_aligned(addr, width.bytes()),
        Kind::Op { rd, r1, r2 } => is_register(rd) && is_register(r1) && is_register(r2),
        Kind::Mv { rd, rs } | Kind::Jr { rd, rs } => is_register(rd) && is_register(rs),
        Kind::Im { rd } => is_register(rd),
        Kind::Br { r1, r2 } => is_register(r1) && is_register(r2),
        Kind::Al { addr, len } | Kind::Fr { addr, len } => is_byte_range(addr, len),
        Kind::Rd { addr, len } | Kind::Wr { addr, len } => is_byte_range(addr, len),
        Kind::Mp { page, count } | Kind::Um { page, count } => is_page_range(page, count),
        Kind::Bf { .. } | Kind::Ft { .. } | Kind::Ex => true,
    }
}

fn is_register(register: u8) -> bool
    ensures { IsTrue result ↔ IsRegister register }
{
    register < REGISTERS
}

fn is_aligned(addr: u32, width: u8) -> bool
    requires { 0 < width }
    ensures { IsTrue result ↔ IsAligned addr width }
{
    addr < MEMORY_BYTES && addr % u32::from(width) == 0
}

fn is_byte_range(addr: u32, len: u32) -> bool
    ensures { IsTrue result ↔ IsByteRange addr len }
{
    addr < MEMORY_BYTES && len >= 1 && len <= MAX_CALL_BYTES && addr + len <= MEMORY_BYTES
}

fn is_page_range(page: u16, count: u16) -> bool
    ensures { IsTrue result ↔ IsPageRange page count }
{
    let (page, count) = (u32::from(page), u32::from(count));
    page < PAGE_COUNT && count >= 1 && count <= MAX_MAPPED_PAGES && page + count <= PAGE_COUNT
}
