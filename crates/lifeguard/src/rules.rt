//! The plain rules, one table a function: what each kind of event reports, and what it makes of masks and bytes.
ghost use Rattle.std.specs.Prelude.{◌≡◌, ◌<◌, ◌≤◌, ◌^◌, ◌++◌, [], length, take, OnOk, OnErr};
ghost use Rattle.pl_base.specs.declared.layout.TheConstants.{PAGE_COUNT, MAX_HARTS};
ghost use Rattle.pl_event.specs.Valid.{HasValidFields};
ghost use Rattle.lifeguard.specs.State.{State};
ghost use Rattle.lifeguard.specs.Shadow.{bytes_in, masks_of, state_from};
ghost use Rattle.lifeguard.specs.Pages.{HasRoomFor};
ghost use Rattle.lifeguard.specs.Plain.{reported, register_report as register_report_of, marked_register as marked_register_of, bad_touch as bad_touch_of, bad_sent as bad_sent_of, misdeed as misdeed_of, misdeed_report, misdeeds, reports_of, masks_after, bytes_after};

use crate::cells::Check;
use crate::guard::{Lifeguard, Name, RangeKind};
use crate::masks::{Masks, first_marked, mask_at, set_mask};
use crate::page::Page;
use crate::pages::{
    change_range_in, first_bad_in, first_bad_on_page, loaded_mask_on_page, make_room, map_pages,
    store_on_page, unmap_pages,
};
use crate::report::{EventPlace, Report, ReportKind};
use pl_base::{FaultCause, NoMemory};
use pl_event::{Kind, PageKind};

/// What a report on a checked register is called.
#[inline]
pub fn register_report(kind: &Kind) -> ReportKind
    ensures { result ≡ register_report_of kind.now }
{
    match kind {
        Kind::Ld { .. } | Kind::St { .. } => ReportKind::Addr,
        Kind::Br { .. } => ReportKind::Branch,
        Kind::Jr { .. } => ReportKind::Jump,
        Kind::Op { .. }
        | Kind::Mv { .. }
        | Kind::Im { .. }
        | Kind::Al { .. }
        | Kind::Fr { .. }
        | Kind::Bf { .. }
        | Kind::Mp { .. }
        | Kind::Um { .. }
        | Kind::Rd { .. }
        | Kind::Wr { .. }
        | Kind::Ex
        | Kind::Ft { .. } => ReportKind::Arg,
    }
}

/// The first checked register whose mask is not 0.
#[inline]
fn marked_register<L: Lifeguard>(guard: L, masks: &Masks, hart: u8, kind: &Kind) -> Option<u32>
    requires hart { hart < MAX_HARTS }
    requires valid { HasValidFields kind.now }
    ensures { result ≡ marked_register_of (L.rules guard) (masks_of masks.now) hart kind.now }
{
    let checked = guard.checked(kind);
    first_marked(masks, hart, &checked.regs[..checked.count as usize])
}

/// The first byte whose access is bad.
#[inline]
fn bad_touch<L: Lifeguard>(guard: L, pages: &[Page], kind: &Kind) -> Option<u32>
    requires whole { length pages.now ≡ PAGE_COUNT }
    requires valid { HasValidFields kind.now }
    ensures { result ≡ bad_touch_of (L.rules guard) (bytes_in pages.now) kind.now }
{
    match *kind {
        Kind::Ld { width, addr, .. } => {
            first_bad_on_page(guard, Check::Access, pages, addr, u32::from(width.bytes()))
        }
        Kind::St { width, addr, .. } => {
            first_bad_on_page(guard, Check::Access, pages, addr, u32::from(width.bytes()))
        }
        Kind::Rd { addr, len } | Kind::Wr { addr, len } => {
            first_bad_in(guard, Check::Access, pages, addr, len)
        }
        Kind::Op { .. }
        | Kind::Mv { .. }
        | Kind::Im { .. }
        | Kind::Br { .. }
        | Kind::Jr { .. }
        | Kind::Al { .. }
        | Kind::Fr { .. }
        | Kind::Bf { .. }
        | Kind::Mp { .. }
        | Kind::Um { .. }
        | Kind::Ex
        | Kind::Ft { .. } => None,
    }
}

/// The first byte that goes outside and may not.
#[inline]
fn bad_sent<L: Lifeguard>(guard: L, pages: &[Page], kind: &Kind) -> Option<u32>
    requires whole { length pages.now ≡ PAGE_COUNT }
    requires valid { HasValidFields kind.now }
    ensures { result ≡ bad_sent_of (L.rules guard) (bytes_in pages.now) kind.now }
{
    match *kind {
        Kind::Wr { addr, len } => first_bad_in(guard, Check::Value, pages, addr, len),
        Kind::Ld { .. }
        | Kind::St { .. }
        | Kind::Op { .. }
        | Kind::Mv { .. }
        | Kind::Im { .. }
        | Kind::Br { .. }
        | Kind::Jr { .. }
        | Kind::Al { .. }
        | Kind::Fr { .. }
        | Kind::Bf { .. }
        | Kind::Mp { .. }
        | Kind::Um { .. }
        | Kind::Rd { .. }
        | Kind::Ex
        | Kind::Ft { .. } => None,
    }
}

/// What the event itself is reported as: a free of no block, or a fault at a byte of no mapped page.
#[inline]
pub fn misdeed(kind: &Kind) -> Option<(ReportKind, u32)>
    ensures { result ≡ misdeed_of kind.now }
{
    match *kind {
        Kind::Bf { addr } => Some((ReportKind::BadFree, addr)),
        Kind::Ft {
            cause: FaultCause::Unmapped,
            addr,
        } => Some((ReportKind::Fault, addr)),
        Kind::Ld { .. }
        | Kind::St { .. }
        | Kind::Op { .. }
        | Kind::Mv { .. }
        | Kind::Im { .. }
        | Kind::Br { .. }
        | Kind::Jr { .. }
        | Kind::Al { .. }
        | Kind::Fr { .. }
        | Kind::Mp { .. }
        | Kind::Um { .. }
        | Kind::Rd { .. }
        | Kind::Wr { .. }
        | Kind::Ex
        | Kind::Ft { .. } => None,
    }
}

/// Adds a report at what was found. Without memory the reports stay.
#[inline]
pub fn push_found(
    reports: &mut Vec<Report>,
    at: EventPlace,
    kind: ReportKind,
    found: Option<u32>,
) -> Result<(), NoMemory>
    ensures ok { OnOk result (reports.new.items ≡ reports.old.items ++ reported at kind found) }
    ensures err { OnErr result (reports.new.items ≡ reports.old.items) }
{
    if let Some(addr) = found {
        reports.push(Report {
            place: at.place,
            hart: at.hart,
            event: at.number,
            kind,
            addr,
        })?;
    }
    Ok(())
}

/// Adds the report of the event itself, which a taint check leaves out. Without memory the reports stay.
#[inline]
pub fn push_misdeed<L: Lifeguard>(
    guard: L,
    reports: &mut Vec<Report>,
    at: EventPlace,
    kind: &Kind,
) -> Result<(), NoMemory>
    ensures ok { OnOk result (reports.new.items ≡ reports.old.items ++ misdeeds (L.rules guard) at kind.now) }
    ensures err { OnErr result (reports.new.items ≡ reports.old.items) }
{
    match misdeed(kind) {
        None => Ok(()),
        Some((deed, addr)) => match guard.name() {
            Name::Taint => Ok(()),
            Name::Addr | Name::Mem => push_found(reports, at, deed, Some(addr)),
        },
    }
}

/// Adds the reports of an event, in order. Without memory only the first of them may be added.
#[inline]
fn push_reports<L: Lifeguard>(
    guard: L,
    pages: &[Page],
    masks: &Masks,
    reports: &mut Vec<Report>,
    at: EventPlace,
    kind: &Kind,
) -> Result<(), NoMemory>
    requires hart { at.hart < MAX_HARTS }
    requires whole { length pages.now ≡ PAGE_COUNT }
    requires valid { HasValidFields kind.now }
    ensures ok { OnOk result (reports.new.items
        ≡ reports.old.items ++ reports_of (L.rules guard) at kind.now (state_from pages.now masks.now [])) }
    ensures err { OnErr result (take (length reports.old.items) reports.new.items ≡ reports.old.items) }
{
    let register = marked_register(guard, masks, at.hart, kind);
    push_found(reports, at, register_report(kind), register)?;
    let touched = bad_touch(guard, pages, kind);
    push_found(reports, at, ReportKind::Access, touched)?;
    let sent = bad_sent(guard, pages, kind);
    push_found(reports, at, ReportKind::Undef, sent)?;
    push_misdeed(guard, reports, at, kind)
}

/// Adds the reports of an event, in order. Without memory the reports stay.
#[inline]
pub fn report_event<L: Lifeguard>(
    guard: L,
    pages: &[Page],
    masks: &Masks,
    reports: &mut Vec<Report>,
    at: EventPlace,
    kind: &Kind,
) -> Result<(), NoMemory>
    requires hart { at.hart < MAX_HARTS }
    requires whole { length pages.now ≡ PAGE_COUNT }
    requires valid { HasValidFields kind.now }
    ensures ok { OnOk result (reports.new.items
        ≡ reports.old.items ++ reports_of (L.rules guard) at kind.now (state_from pages.now masks.now [])) }
    ensures err { OnErr result (reports.new.items ≡ reports.old.items) }
{
    let before = reports.len();
    match push_reports(guard, pages, masks, reports, at, kind) {
        Ok(()) => Ok(()),
        Err(error) => {
            reports.truncate(before);
            Err(error)
        }
    }
}

/// Makes cells for the pages that an event maps. What the pages stand for stays, also where no memory is left.
#[inline]
pub fn make_room_for(pages: &mut [Page], kind: &Kind) -> Result<(), NoMemory>
    requires whole { length pages.old ≡ PAGE_COUNT }
    requires valid { HasValidFields kind.now }
    ensures room { OnOk result (HasRoomFor kind.now pages.new) }
    ensures same { bytes_in pages.new ≡ bytes_in pages.old }
{
    match *kind {
        Kind::Mp { page, count } => make_room(pages, page, count),
        Kind::Ld { .. }
        | Kind::St { .. }
        | Kind::Op { .. }
        | Kind::Mv { .. }
        | Kind::Im { .. }
        | Kind::Br { .. }
        | Kind::Jr { .. }
        | Kind::Al { .. }
        | Kind::Fr { .. }
        | Kind::Bf { .. }
        | Kind::Um { .. }
        | Kind::Rd { .. }
        | Kind::Wr { .. }
        | Kind::Ex
        | Kind::Ft { .. } => Ok(()),
    }
}

/// What an event makes of the masks. Register 10 has a kernel call's answer.
#[inline]
pub fn change_masks<L: Lifeguard>(
    guard: L,
    pages: &[Page],
    masks: &mut Masks,
    hart: u8,
    kind: &Kind,
)
    requires hart { hart < MAX_HARTS }
    requires whole { length pages.now ≡ PAGE_COUNT }
    requires valid { HasValidFields kind.now }
    ensures { masks_of masks.new ≡ masks_after (L.rules guard) hart kind.now (bytes_in pages.now) (masks_of masks.old) }
{
    match *kind {
        Kind::Ld {
            width,
            rd,
            addr,
            ..
        } => {
            let mask = loaded_mask_on_page(guard, width, pages, addr);
            set_mask(masks, hart, rd, mask);
        }
        Kind::Op { rd, r1, r2 } => {
            let mask = guard.joins(mask_at(masks, hart, r1), mask_at(masks, hart, r2));
            set_mask(masks, hart, rd, mask);
        }
        Kind::Mv { rd, rs } => {
            let mask = mask_at(masks, hart, rs);
            set_mask(masks, hart, rd, mask);
        }
        Kind::Im { rd } | Kind::Jr { rd, .. } => set_mask(masks, hart, rd, 0),
        Kind::Al { .. }
        | Kind::Fr { .. }
        | Kind::Bf { .. }
        | Kind::Mp { .. }
        | Kind::Um { .. }
        | Kind::Rd { .. }
        | Kind::Wr { .. } => set_mask(masks, hart, 10, 0),
        Kind::St { .. } | Kind::Br { .. } | Kind::Ex | Kind::Ft { .. } => {}
    }
}

/// What an event makes of the bytes.
#[inline]
pub fn change_bytes<L: Lifeguard>(
    guard: L,
    masks: &Masks,
    pages: &mut [Page],
    hart: u8,
    kind: &Kind,
)
    requires hart { hart < MAX_HARTS }
    requires whole { length pages.old ≡ PAGE_COUNT }
    requires valid { HasValidFields kind.now }
    requires room { HasRoomFor kind.now pages.old }
    ensures { bytes_in pages.new ≡ bytes_after (L.rules guard) hart kind.now (bytes_in pages.old) (masks_of masks.now) }
{
    match *kind {
        Kind::St {
            width,
            rv,
            addr,
            ..
        } => {
            store_on_page(guard, mask_at(masks, hart, rv), pages, addr, width.bytes());
        }
        Kind::Al { addr, len } => change_range_in(guard, RangeKind::Al, pages, addr, len),
        Kind::Fr { addr, len } => change_range_in(guard, RangeKind::Fr, pages, addr, len),
        Kind::Mp { page, count } => map_pages(guard, PageKind::Data, pages, page, count),
        Kind::Um { page, count } => unmap_pages(pages, page, count),
        Kind::Rd { addr, len } => change_range_in(guard, RangeKind::Rd, pages, addr, len),
        Kind::Ld { .. }
        | Kind::Op { .. }
        | Kind::Mv { .. }
        | Kind::Im { .. }
        | Kind::Br { .. }
        | Kind::Jr { .. }
        | Kind::Bf { .. }
        | Kind::Wr { .. }
        | Kind::Ex
        | Kind::Ft { .. } => {}
    }
}
