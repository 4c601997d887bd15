//! Pages that get frames, and frames that are freed.
ghost use Rattle.std.specs.Prelude.{◌≡◌, ◌≢◌, ℕ, ◌+◌, ◌-◌, ◌%◌, ◌<◌, ◌≤◌, true, false, slice_index};
ghost use Rattle.pl_base.specs.declared.layout.TheConstants.{MAX_MAPPED_PAGES, PAGE_COUNT};
ghost use Rattle.pl_event.specs.declared.event.Kind.TheVariants.{Mp, Um};
ghost use Rattle.pl_event.specs.declared.log.PageKind.TheVariants.{Data};
ghost use Rattle.pl_event.specs.Valid.{IsPageRange};
ghost use Rattle.guard_table.specs.Seats.{plan_of, seat_view, IsSeatOf};
ghost use Rattle.shadow_frames.specs.declared.words.TheConstants as words;
ghost use Rattle.shadow_frames.specs.Frames as frames;
ghost use Rattle.shadow_frames.specs.Frames.{fills, lowest_free, pages_from};
ghost use Rattle.shadow_frames.specs.Words.{bit, directory_word, frame_word, is_used, map_word};
ghost use Rattle.shadow_frames.specs.Words as table;
ghost use Rattle.worker_laws.specs.Runs.{before};
ghost use Rattle.worker_records.specs.Alerts.{IsAmid};
ghost use Rattle.worker_records.specs.Shapes.{IsDue, Midst, made};
ghost use Rattle.worker_records.specs.Pages.{place_shapes, reads_from};
ghost use Rattle.worker_records.specs.Places.{IsAt, run_at};

use crate::shapes::{read_next, write_next};
use guard_table::{GuardSeat, Monitor};
use lifeguard::Lifeguard;
use order_core::Plan;
use pl_event::PageKind;
use shadow_frames::words::{DIRECTORY_START, FRAME_MAP_START, FRAME_WORDS, SHADOW_START};
use shadow_frames::{all_nibbles, free_frame, with_bit, without_bit};

/// How many operations a page that is mapped has.
const MAP_OPERATIONS: u32 = 10 + FRAME_WORDS;

/// How many operations a page that is unmapped has.
const UNMAP_OPERATIONS: u32 = 4;

// Reads the words of the frame map, by operations from `op` on.
fn read_map<P: Plan>(monitor: &Monitor<P>, seat: &mut GuardSeat, number: u32, op: u32) -> [u64; 8]
    requires of { IsSeatOf P.planned monitor.now seat.old }
    requires few { op < 4294967280 }
    requires due { let v = seat_view seat.old in (m : Midst)
        × IsDue (P.planned (plan_of monitor.now)) v number op (reads_from words.FRAME_MAP_START 8) m }
    ensures of { IsSeatOf P.planned monitor.now seat.new }
    ensures view { seat_view seat.new ≡ seat_view seat.old }
    ensures map { let v = seat_view seat.old in (m : Midst)
        → IsDue (P.planned (plan_of monitor.now)) v number op (reads_from words.FRAME_MAP_START 8) m
        → (i : ℕ) → i < 8 → m.words (words.FRAME_MAP_START + i) ≡ slice_index result i }
{
    let mut map = [0; 8];
    for i in 0..8u32 {
        map[i as usize] = read_next(monitor, seat, number, op + i, FRAME_MAP_START + i);
    }
    map
}

// All words of a frame are written, by operations from `op` on.
fn fill_frame<P: Plan>(
    monitor: &Monitor<P>,
    seat: &mut GuardSeat,
    number: u32,
    op: u32,
    frame: u32,
    filling: u64,
)
    requires of { IsSeatOf P.planned monitor.now seat.old }
    requires frame { frame < MAX_MAPPED_PAGES }
    requires few { op < 4294967030 }
    requires due { (m : Midst) × IsDue (P.planned (plan_of monitor.now)) (seat_view seat.old) number op
        (fills (frame_word frame) filling words.FRAME_WORDS) m }
    ensures of { IsSeatOf P.planned monitor.now seat.new }
    ensures view { let v = seat_view seat.old in
        seat_view seat.new ≡ made (fills (frame_word frame) filling words.FRAME_WORDS) v }
{
    let first = SHADOW_START + FRAME_WORDS * frame;
    for i in 0..FRAME_WORDS {
        write_next(monitor, seat, number, op + i, first + i, filling);
    }
}

// A page gets the frame, which the words of the frame map have as free, by operations from `op` on.
fn put_page<P: Plan>(
    monitor: &Monitor<P>,
    seat: &mut GuardSeat,
    number: u32,
    op: u32,
    page: u32,
    frame: u32,
    bits: u64,
    filling: u64,
)
    requires of { IsSeatOf P.planned monitor.now seat.old }
    requires page { page < PAGE_COUNT }
    requires frame { frame < MAX_MAPPED_PAGES }
    requires free { bit bits (frame % 64) ≡ false }
    requires few { op < 4294967028 }
    requires due { (m : Midst)
        × IsDue (P.planned (plan_of monitor.now)) (seat_view seat.old) number op (place_shapes frame page filling) m
        × (bits ≡ m.words (map_word frame)) }
    ensures of { IsSeatOf P.planned monitor.now seat.new }
    ensures view { seat_view seat.new ≡ made (place_shapes frame page filling) (seat_view seat.old) }
{
    let bits = with_bit(bits, frame % 64);
    write_next(
        monitor,
        seat,
        number,
        op,
        FRAME_MAP_START + frame / 64,
        bits,
    );
    write_next(
        monitor,
        seat,
        number,
        op + 1,
        DIRECTORY_START + page,
        u64::from(frame) + 1,
    );
    fill_frame(monitor, seat, number, op + 2, frame, filling);
}

// A page gets the lowest free frame, by operations from `op` on.
fn map_page<P: Plan>(
    monitor: &Monitor<P>,
    seat: &mut GuardSeat,
    number: u32,
    op: u32,
    page: u32,
    filling: u64,
)
    requires of { IsSeatOf P.planned monitor.now seat.old }
    requires page { page < PAGE_COUNT }
    requires few { op < 4294967020 }
    requires due { let v = seat_view seat.old in (m : Midst)
        × IsDue (P.planned (plan_of monitor.now)) v number op (frames.map_page filling m.words page) m
        × (lowest_free m.words < MAX_MAPPED_PAGES) × (is_used m.words (lowest_free m.words) ≡ false) }
    ensures of { IsSeatOf P.planned monitor.now seat.new }
    ensures view { let v = seat_view seat.old in (m : Midst)
        → IsDue (P.planned (plan_of monitor.now)) v number op (frames.map_page filling m.words page) m
        → seat_view seat.new ≡ made (frames.map_page filling m.words page) v }
{
    let map = read_map(monitor, seat, number, op);
    if let Some(frame) = free_frame(&map) {
        let frame = u32::from(frame);
        let bits = map[(frame / 64) as usize];
        put_page(monitor, seat, number, op + 8, page, frame, bits, filling);
    }
}

/// Pages get frames, each the lowest that is free.
pub fn map_pages<P: Plan, L: Lifeguard>(
    monitor: &Monitor<P>,
    seat: &mut GuardSeat,
    guard: L,
    number: u32,
    page: u32,
    count: u32,
)
    requires at { IsAt P.planned monitor.now (L.rules guard) seat.old }
    requires pages { IsPageRange page count }
    requires amid { let v = seat_view seat.old in let p = run_at (L.rules guard) v in
        let w = (before p v.hart number).words in
        IsAmid p v number 0 (Mp page count) w
        (pages_from (frames.map_page (table.all_nibbles (p.rules.page_state Data))) w page count) }
    ensures at { IsAt P.planned monitor.now (L.rules guard) seat.new }
    ensures view { let v = seat_view seat.old in let p = run_at (L.rules guard) v in
        let w = (before p v.hart number).words in
        seat_view seat.new
        ≡ made (pages_from (frames.map_page (table.all_nibbles (p.rules.page_state Data))) w page count) v }
{
    let filling = all_nibbles(guard.page_state(PageKind::Data));
    for i in 0..count {
        map_page(monitor, seat, number, MAP_OPERATIONS * i, page + i, filling);
    }
}

// The frame of a page is freed, by operations from `op` on.
fn unmap_page<P: Plan>(monitor: &Monitor<P>, seat: &mut GuardSeat, number: u32, op: u32, page: u32)
    requires of { IsSeatOf P.planned monitor.now seat.old }
    requires page { page < PAGE_COUNT }
    requires few { op < 4294967290 }
    requires due { (m : Midst)
        × IsDue (P.planned (plan_of monitor.now)) (seat_view seat.old) number op (frames.unmap_page m.words page) m
        × (m.words (directory_word page) ≢ 0) × (m.words (directory_word page) ≤ MAX_MAPPED_PAGES)
        × (is_used m.words (m.words (directory_word page) - 1) ≡ true) }
    ensures of { IsSeatOf P.planned monitor.now seat.new }
    ensures view { let v = seat_view seat.old in (m : Midst)
        → IsDue (P.planned (plan_of monitor.now)) v number op (frames.unmap_page m.words page) m
        → seat_view seat.new ≡ made (frames.unmap_page m.words page) v }
{
    let directory = read_next(monitor, seat, number, op, DIRECTORY_START + page);
    let frame = directory as u32 - 1;
    let map = FRAME_MAP_START + frame / 64;
    let bits = read_next(monitor, seat, number, op + 1, map);
    write_next(
        monitor,
        seat,
        number,
        op + 2,
        map,
        without_bit(bits, frame % 64),
    );
    write_next(monitor, seat, number, op + 3, DIRECTORY_START + page, 0);
}

/// The frames of pages are freed.
pub fn unmap_pages<P: Plan, L: Lifeguard>(
    monitor: &Monitor<P>,
    seat: &mut GuardSeat,
    guard: L,
    number: u32,
    page: u32,
    count: u32,
)
    requires at { IsAt P.planned monitor.now (L.rules guard) seat.old }
    requires pages { IsPageRange page count }
    requires amid { let v = seat_view seat.old in let p = run_at (L.rules guard) v in
        let w = (before p v.hart number).words in
        IsAmid p v number 0 (Um page count) w (pages_from frames.unmap_page w page count) }
    ensures at { IsAt P.planned monitor.now (L.rules guard) seat.new }
    ensures view { let v = seat_view seat.old in let p = run_at (L.rules guard) v in
        let w = (before p v.hart number).words in
        seat_view seat.new ≡ made (pages_from frames.unmap_page w page count) v }
{
    for i in 0..count {
        unmap_page(monitor, seat, number, UNMAP_OPERATIONS * i, page + i);
    }
}
