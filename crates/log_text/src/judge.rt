//! The rules, one function each: whether a line breaks it after the lines of which a tally tells.
//!
//! A hart that the run has is below 8, so its remainder by 8 is itself; taken as an index, it needs no test.

ghost use Rattle.std.specs.Prelude.{◌≡◌, ◌<◌, ◌≤◌, ◌+◌, ◌%◌, ◌^◌, ◌==◌, ◌||◌, ◌&&◌, ◌∷◌, List, ℕ, true, false, not, Some, None, nat_le, nat_lt, find, is_some, slice_index_or, if◌then◌else◌};
ghost use Rattle.std.specs.List.{list_any};
ghost use Rattle.pl_base.specs.Widths.{load_bytes, store_bytes};
ghost use Rattle.pl_event.specs.declared.log.Point.{Point};
ghost use Rattle.pl_event.specs.Alerts.{is_alert_kind};
ghost use Rattle.pl_event.specs.Numbers.{hart_of};
ghost use Rattle.pl_event.specs.Edges.{some_number};
ghost use Rattle.log_grammar.specs.Arcs.{ShowsPoints, arcs_in};
ghost use Rattle.log_grammar.specs.Spelling.{Entry, row, page, points_from};
ghost use Rattle.log_text.specs.Tally.{Keeps};
ghost use Rattle.log_text.specs.WellFormed.{broken, breaks, rules_of_fields, breaks_page, breaks_records, breaks_hart, breaks_ended, breaks_arc, breaks_notice, names_past, is_waiting, is_awaited, records_in, is_bad_notice, is_notice, has_pending, on_event, is_misaligned, passes_end, is_bad_map};
ghost use Rattle.pl_event.specs.Runs.{ends_hart};

use crate::cause::LogCause;
use crate::tally::Tally;
use log_grammar::ArcList;
use pl_base::layout::{MAX_MAPPED_PAGES, MAX_RECORDS, MEMORY_BYTES, PAGE_COUNT};
use pl_base::{LoadWidth, StoreWidth};
use pl_event::{Kind, PageRun, Point, Record, is_alert, record_hart};

/// How many pages are mapped at most, and how many bytes memory has, as numbers to which a count is added.
const MAX_MAPPED: u64 = MAX_MAPPED_PAGES as u64;

const MEMORY: u64 = MEMORY_BYTES as u64;

/// The first rule that a run of pages breaks after the lines so far.
pub fn judge_page(tally: &Tally, run: PageRun) -> Option<LogCause>
    ensures { (before : List Entry) → Keeps tally.now before → result ≡ broken tally.now.harts before (page run) }
{
    if is_misplaced(tally, run) {
        Some(LogCause::Page)
    } else {
        None
    }
}

fn is_misplaced(tally: &Tally, run: PageRun) -> bool
    ensures { (before : List Entry) → Keeps tally.now before → result ≡ breaks_page before run }
{
    let first = u32::from(run.first);
    let end = first + u32::from(run.count);
    let mapped = u64::from(tally.pages.count()) + u64::from(run.count);
    (tally.records != 0) | (first < tally.next_page) | (end > PAGE_COUNT) | (mapped > MAX_MAPPED)
}

/// The first rule that a record breaks after the lines so far.
#[inline(always)]
pub fn judge_row(tally: &Tally, what: Record, has_arcs: bool, list: &ArcList) -> Option<LogCause>
    ensures { (before : List Entry) (arcs : List Point) → Keeps tally.now before →
        ShowsPoints has_arcs list.now arcs → result ≡ broken tally.now.harts before (row what arcs) }
{
    if tally.records >= MAX_RECORDS {
        return Some(LogCause::Records);
    }
    if is_past_harts(tally, what, has_arcs, list) {
        return Some(LogCause::Hart);
    }
    if is_after_end(tally, what) {
        return Some(LogCause::Ended);
    }
    if is_open(tally, record_hart(&what)) {
        return Some(LogCause::Open);
    }
    if has_bad_arcs(tally, what, has_arcs, list) {
        return Some(LogCause::Arc);
    }
    if is_bad_record(tally, what) {
        return Some(LogCause::Notice);
    }
    judge_fields(tally, what)
}

/// The first rule on its fields that an event breaks: a kind has one at most.
#[inline(always)]
fn judge_fields(tally: &Tally, what: Record) -> Option<LogCause>
    ensures { (before : List Entry) → Keeps tally.now before → (harts : ℕ) (arcs : List Point) →
        result ≡ find (breaks harts before (row what arcs)) rules_of_fields }
{
    let Record::Event(event) = what else {
        return None;
    };
    match event.kind {
        Kind::Ld { width, addr, .. } => unless(is_load_aligned(addr, width), LogCause::Access),
        Kind::St { width, addr, .. } => unless(is_store_aligned(addr, width), LogCause::Access),
        Kind::Al { addr, len } | Kind::Fr { addr, len } => unless(
            is_inside(addr, len),
            LogCause::Range,
        ),
        Kind::Rd { addr, len } | Kind::Wr { addr, len } => unless(
            is_inside(addr, len),
            LogCause::Range,
        ),
        Kind::Mp { page, count } => unless(may_map(tally, page, count), LogCause::Map),
        Kind::Um { page, count } => unless(may_unmap(tally, page, count), LogCause::Map),
        _ => None,
    }
}

/// The cause, unless its rule is kept.
#[inline(always)]
fn unless(kept: bool, cause: LogCause) -> Option<LogCause>
    ensures { result ≡ (if kept then None else Some cause) }
{
    if kept { None } else { Some(cause) }
}

/// Whether the record is of a hart that the run does not have, or names one.
#[inline(always)]
fn is_past_harts(tally: &Tally, what: Record, has_arcs: bool, list: &ArcList) -> bool
    ensures { (before : List Entry) (arcs : List Point) → Keeps tally.now before →
        ShowsPoints has_arcs list.now arcs → result ≡ breaks_hart tally.now.harts what arcs }
{
    names_past(tally.harts, what) || is_list_past(tally.harts, has_arcs, list)
}

#[inline(always)]
fn names_past(harts: u8, what: Record) -> bool
    ensures { result ≡ names_past harts what }
{
    match what {
        Record::Event(event) => event.hart >= harts,
        Record::Notice { hart, of } => hart >= harts || of.hart >= harts,
    }
}

#[inline(always)]
fn is_list_past(harts: u8, has_arcs: bool, list: &ArcList) -> bool
    ensures { (arcs : List Point) → 1 ≤ harts → ShowsPoints has_arcs list.now arcs →
        result ≡ list_any (λ point. nat_le harts point.hart) arcs }
{
    has_arcs && list.highest >= harts
}

/// Whether an event follows the end of its hart.
#[inline(always)]
fn is_after_end(tally: &Tally, what: Record) -> bool
    ensures { (before : List Entry) → Keeps tally.now before → names_past tally.now.harts what ≡ false →
        result ≡ breaks_ended before what }
{
    match what {
        Record::Event(event) => tally.ended[usize::from(event.hart % 8)],
        Record::Notice { .. } => false,
    }
}

/// Whether a notice of the hart waits for its event.
#[inline(always)]
fn is_open(tally: &Tally, hart: u8) -> bool
    ensures { (before : List Entry) → Keeps tally.now before → hart < 8 → result ≡ is_waiting before hart }
{
    match tally.notices[usize::from(hart % 8)] {
        Some(of) => is_to_come(tally, of),
        None => false,
    }
}

/// Whether a record has not come.
#[inline(always)]
fn is_to_come(tally: &Tally, of: Point) -> bool
    ensures { (before : List Entry) → Keeps tally.now before → of.hart < 8 →
        result ≡ nat_lt (records_in of.hart before) of.number }
{
    tally.numbers[usize::from(of.hart % 8)] < of.number
}

#[inline(always)]
fn has_bad_arcs(tally: &Tally, what: Record, has_arcs: bool, list: &ArcList) -> bool
    ensures { (before : List Entry) (arcs : List Point) → Keeps tally.now before →
        ShowsPoints has_arcs list.now arcs → breaks_hart tally.now.harts what arcs ≡ false
        → result ≡ breaks_arc before what arcs }
{
    has_arcs && (!list.rising || some_arc_is_bad(&list.numbers, record_hart(&what), &tally.numbers))
}

/// Whether an arc is of the own hart, or from a record that has not come: all eight harts
/// are looked at, without a jump.
#[inline]
fn some_arc_is_bad(arcs: &[u32; 8], own: u8, numbers: &[u32; 8]) -> bool
    ensures { result ≡ list_any (λ point. (point.hart == own)
        || nat_lt (slice_index_or numbers.now point.hart 0) point.number) (points_from 0 (arcs_in arcs.now)) }
{
    let mut bad = false;
    'harts: for hart in 0..8u8 {
        let at = usize::from(hart);
        bad |= is_arc_bad(arcs[at], hart == own, numbers[at]);
    }
    bad
}

/// Whether an arc from that record of a hart, of which so many have come, is bad.
#[inline]
fn is_arc_bad(arc: u32, is_own: bool, come: u32) -> bool
    ensures some { (number : ℕ) → some_number arc ≡ Some number → result ≡ (is_own || nat_lt come number) }
    ensures none { some_number arc ≡ None → result ≡ false }
{
    (arc != 0) & (is_own | (come < arc))
}

/// Whether a notice is of the own hart or of a record that has come, or a record that is named is no alert event.
#[inline(always)]
fn is_bad_record(tally: &Tally, what: Record) -> bool
    ensures { (before : List Entry) → Keeps tally.now before → names_past tally.now.harts what ≡ false →
        result ≡ breaks_notice before what }
{
    is_bad_notice(tally, what) || (is_expected(tally, record_hart(&what)) && !is_alert_record(what))
}

#[inline(always)]
fn is_bad_notice(tally: &Tally, what: Record) -> bool
    ensures { (before : List Entry) → Keeps tally.now before → names_past tally.now.harts what ≡ false →
        result ≡ is_bad_notice before what }
{
    match what {
        Record::Event(_) => false,
        Record::Notice { hart, of } => of.hart == hart || !is_to_come(tally, of),
    }
}

fn is_alert_record(what: Record) -> bool
    ensures { result ≡ on_event is_alert_kind what }
{
    match what {
        Record::Event(event) => is_alert(&event.kind),
        Record::Notice { .. } => false,
    }
}

/// Whether a notice names the next record of the hart.
#[inline(always)]
fn is_expected(tally: &Tally, hart: u8) -> bool
    ensures { (before : List Entry) → Keeps tally.now before → hart < 8 → result ≡ is_awaited before hart }
{
    let number = tally.numbers[usize::from(hart % 8)];
    number < tally.named[usize::from(hart % 8)] && some_names(&tally.notices, hart, number)
}

/// Whether one of the notices is of the record after that number of the hart.
fn some_names(notices: &[Option<Point>; 8], hart: u8, number: u32) -> bool
    ensures yes { result ≡ true → (own : ℕ) × (point : Point) × (own < 8) ×
        (slice_index_or notices.now own None ≡ Some point) × (point.hart ≡ hart) × (point.number ≡ number + 1) }
    ensures no { result ≡ false → (own : ℕ) (point : Point) → own < 8 →
        slice_index_or notices.now own None ≡ Some point → point.hart ≡ hart → point.number ≡ number + 1 → ⊥ }
{
    'harts: for own in 0..8usize {
        if names(notices[own], hart, number) {
            return true;
        }
    }
    false
}

#[inline]
fn names(notice: Option<Point>, hart: u8, number: u32) -> bool
    ensures some { (point : Point) → notice ≡ Some point →
        result ≡ ((point.hart == hart) && (point.number == number + 1)) }
    ensures none { notice ≡ None → result ≡ false }
{
    match notice {
        Some(of) => of.hart == hart && u64::from(of.number) == u64::from(number) + 1,
        None => false,
    }
}

/// Whether the address of a load is a multiple of its width, by the bits that the width leaves.
#[inline(always)]
fn is_load_aligned(addr: u32, width: LoadWidth) -> bool
    ensures { result ≡ ((addr % load_bytes width) == 0) }
{
    let low_bits = match width {
        LoadWidth::B | LoadWidth::Bu => 0,
        LoadWidth::H | LoadWidth::Hu => 1,
        LoadWidth::W => 3,
    };
    addr & low_bits == 0
}

/// The same of a store.
#[inline(always)]
fn is_store_aligned(addr: u32, width: StoreWidth) -> bool
    ensures { result ≡ ((addr % store_bytes width) == 0) }
{
    let low_bits = match width {
        StoreWidth::B => 0,
        StoreWidth::H => 1,
        StoreWidth::W => 3,
    };
    addr & low_bits == 0
}

/// Whether a range of bytes ends in memory.
#[inline(always)]
fn is_inside(addr: u32, len: u32) -> bool
    ensures { result ≡ not (nat_lt (2 ^ 24) (addr + len)) }
{
    u64::from(addr) + u64::from(len) <= MEMORY
}

fn may_map(tally: &Tally, page: u16, count: u16) -> bool
    ensures { (before : List Entry) → Keeps tally.now before → result ≡ not (is_bad_map before (Kind.Mp page count)) }
{
    let first = u32::from(page);
    let count = u32::from(count);
    first + count <= PAGE_COUNT
        && !tally.pages.holds_some(first, count)
        && u64::from(tally.pages.count()) + u64::from(count) <= MAX_MAPPED
}

fn may_unmap(tally: &Tally, page: u16, count: u16) -> bool
    ensures { (before : List Entry) → Keeps tally.now before → result ≡ not (is_bad_map before (Kind.Um page count)) }
{
    let first = u32::from(page);
    let count = u32::from(count);
    first + count <= PAGE_COUNT && !tally.pages.lacks_some(first, count)
}

/// Whether a notice waits for its event.
pub fn some_is_open(tally: &Tally) -> bool
    ensures { (before : List Entry) → Keeps tally.now before → result ≡ has_pending before }
{
    'harts: for hart in 0..8u8 {
        if is_open(tally, hart) {
            return true;
        }
    }
    false
}
