//! The operations of events on ranges of bytes, block by block.
ghost use Rattle.std.specs.Prelude.{◌≡◌, ℕ, ◌+◌, ◌/◌, ◌%◌, ◌<◌, ◌≤◌, find};
ghost use Rattle.pl_base.specs.declared.layout.TheConstants.{BLOCK_BYTES, MEMORY_BYTES};
ghost use Rattle.pl_event.specs.declared.event.Kind.{Kind};
ghost use Rattle.pl_event.specs.Valid.{IsByteRange};
ghost use Rattle.lifeguard.specs.State.{Bytes, nibble_at, span};
ghost use Rattle.guard_table.specs.Seats.{plan_of, seat_view, IsSeatOf};
ghost use Rattle.shadow_frames.specs.Frames.{pages_from};
ghost use Rattle.shadow_layout.specs.Operations as operations;
ghost use Rattle.shadow_layout.specs.Operations.{blocks_of, range_shapes};
ghost use Rattle.worker_laws.specs.Runs.{before};
ghost use Rattle.worker_records.specs.Alerts.{IsAmid};
ghost use Rattle.worker_records.specs.Shapes.{IsDue, Midst, made};
ghost use Rattle.worker_records.specs.Blocks.{IsMadeBlock, IsSoundBlock, found_in, or_else, part_shapes};
ghost use Rattle.worker_records.specs.Places.{IsAt, run_at};
ghost use Rattle.worker_records.specs.Words.{HasLowNibbles, TellsOf};

use crate::ranges::ByteRange;
use crate::shapes::{read_next, write_next};
use crate::state::Found;
use crate::words::{directory_word, first_bad, first_undefined, shadow_word};
use guard_table::{GuardSeat, Monitor};
use lifeguard::{Lifeguard, RangeKind};
use order_core::Plan;
use pl_base::layout::BLOCK_BYTES;

/// What was found in a block.
#[derive(Clone, Copy)]
pub struct BlockFound {
    /// How many operations were made.
    pub operations: u32,
    /// The block's word, or 0 where its page is not mapped.
    pub word: u64,
}

// The nibbles of bytes of one block are changed, by operations from `op` on.
fn change_block<P: Plan, L: Lifeguard>(
    monitor: &Monitor<P>,
    seat: &mut GuardSeat,
    guard: L,
    number: u32,
    op: u32,
    kind: RangeKind,
    part: ByteRange,
) -> BlockFound
    requires of { IsSeatOf P.planned monitor.now seat.old }
    requires near { part.addr < MEMORY_BYTES }
    requires narrow { part.addr % BLOCK_BYTES + part.len ≤ BLOCK_BYTES }
    requires few { op < 4294967292 }
    requires due { let v = seat_view seat.old in (m : Midst)
        × IsDue (P.planned (plan_of monitor.now)) v number op (part_shapes (L.rules guard) kind m.words part) m
        × IsSoundBlock m.words (part.addr / BLOCK_BYTES) }
    ensures of { IsSeatOf P.planned monitor.now seat.new }
    ensures made { let v = seat_view seat.old in (m : Midst)
        → IsDue (P.planned (plan_of monitor.now)) v number op (part_shapes (L.rules guard) kind m.words part) m
        → IsMadeBlock (part_shapes (L.rules guard) kind m.words part) (found_in m.words (part.addr / BLOCK_BYTES))
        v (seat_view seat.new) result }
{
    let directory = read_next(monitor, seat, number, op, directory_word(part.addr));
    if directory == 0 {
        return BlockFound {
            operations: 1,
            word: 0,
        };
    }
    let at = shadow_word(directory, part.addr);
    let word = read_next(monitor, seat, number, op + 1, at);
    let after = part.word_after(guard, kind, word);
    write_next(monitor, seat, number, op + 2, at, after);
    BlockFound {
        operations: 3,
        word,
    }
}

// The nibbles of a block are read, by operations from `op` on.
fn read_block<P: Plan>(
    monitor: &Monitor<P>,
    seat: &mut GuardSeat,
    number: u32,
    op: u32,
    addr: u32,
) -> BlockFound
    requires of { IsSeatOf P.planned monitor.now seat.old }
    requires near { addr < MEMORY_BYTES }
    requires few { op < 4294967292 }
    requires due { let v = seat_view seat.old in let block = addr / BLOCK_BYTES in (m : Midst)
        × IsDue (P.planned (plan_of monitor.now)) v number op (operations.read_block m.words block) m
        × IsSoundBlock m.words block }
    ensures of { IsSeatOf P.planned monitor.now seat.new }
    ensures made { let v = seat_view seat.old in let block = addr / BLOCK_BYTES in (m : Midst)
        → IsDue (P.planned (plan_of monitor.now)) v number op (operations.read_block m.words block) m
        → IsMadeBlock (operations.read_block m.words block) (found_in m.words block) v (seat_view seat.new) result }
{
    let directory = read_next(monitor, seat, number, op, directory_word(addr));
    if directory == 0 {
        return BlockFound {
            operations: 1,
            word: 0,
        };
    }
    let word = read_next(monitor, seat, number, op + 1, shadow_word(directory, addr));
    BlockFound {
        operations: 2,
        word,
    }
}

// The first byte that may not be touched, of those before or else of these.
fn next_touched<L: Lifeguard>(
    found: Option<u32>,
    guard: L,
    word: u64,
    part: ByteRange,
) -> Option<u32>
    requires near { part.addr < MEMORY_BYTES }
    requires narrow { part.addr % BLOCK_BYTES + part.len ≤ BLOCK_BYTES }
    requires low { HasLowNibbles word part.addr part.len }
    ensures { (bytes : Bytes) → TellsOf word bytes part.addr part.len
        → let here = find (λ a. (L.rules guard).bad_access (nibble_at bytes a)) (span part.addr part.len) in
        result ≡ or_else found here }
{
    match found {
        Some(addr) => Some(addr),
        None => first_bad(guard, word, part.addr, part.len as u8),
    }
}

// The first byte that may not go outside, of those before or else of these.
fn next_sent<L: Lifeguard>(found: Option<u32>, guard: L, word: u64, part: ByteRange) -> Option<u32>
    requires near { part.addr < MEMORY_BYTES }
    requires narrow { part.addr % BLOCK_BYTES + part.len ≤ BLOCK_BYTES }
    requires low { HasLowNibbles word part.addr part.len }
    ensures { (bytes : Bytes) → TellsOf word bytes part.addr part.len
        → let here = find (λ a. (L.rules guard).bad_value (nibble_at bytes a)) (span part.addr part.len) in
        result ≡ or_else found here }
{
    match found {
        Some(addr) => Some(addr),
        None => first_undefined(guard, word, part.addr, part.len as u8),
    }
}

/// Changes the nibbles of a range, by all operations of its event: the first byte of it that may not be touched.
pub fn change_range<P: Plan, L: Lifeguard>(
    monitor: &Monitor<P>,
    seat: &mut GuardSeat,
    guard: L,
    number: u32,
    kind: RangeKind,
    range: ByteRange,
) -> Option<u32>
    requires at { IsAt P.planned monitor.now (L.rules guard) seat.old }
    requires range { IsByteRange range.addr range.len }
    requires amid { let v = seat_view seat.old in let p = run_at (L.rules guard) v in
        let w = (before p v.hart number).words in (event : Kind)
        × IsAmid p v number 0 event w (range_shapes p.rules p.plan.log.block kind w range.addr range.len) }
    ensures at { IsAt P.planned monitor.now (L.rules guard) seat.new }
    ensures view { let v = seat_view seat.old in let p = run_at (L.rules guard) v in
        let w = (before p v.hart number).words in
        seat_view seat.new ≡ made (range_shapes p.rules p.plan.log.block kind w range.addr range.len) v }
    ensures touched { let v = seat_view seat.old in
        let bytes = (before (run_at (L.rules guard) v) v.hart number).state.bytes in
        result ≡ find (λ a. (L.rules guard).bad_access (nibble_at bytes a)) (span range.addr range.len) }
{
    let first = range.addr / u32::from(BLOCK_BYTES);
    let mut op = 0;
    let mut touched = None;
    for i in 0..range.blocks() {
        let part = range.in_block(first + i);
        let found = change_block(monitor, seat, guard, number, op, kind, part);
        op += found.operations;
        touched = next_touched(touched, guard, found.word, part);
    }
    touched
}

/// Reads the nibbles of a range, by all operations of its event: what is found at its bytes.
pub fn read_range<P: Plan, L: Lifeguard>(
    monitor: &Monitor<P>,
    seat: &mut GuardSeat,
    guard: L,
    number: u32,
    range: ByteRange,
) -> Found
    requires at { IsAt P.planned monitor.now (L.rules guard) seat.old }
    requires range { IsByteRange range.addr range.len }
    requires amid { let v = seat_view seat.old in let p = run_at (L.rules guard) v in
        let w = (before p v.hart number).words in (event : Kind)
        × IsAmid p v number 0 event w
        (pages_from operations.read_block w (range.addr / BLOCK_BYTES) (blocks_of range.addr range.len)) }
    ensures at { IsAt P.planned monitor.now (L.rules guard) seat.new }
    ensures view { let v = seat_view seat.old in let p = run_at (L.rules guard) v in
        let w = (before p v.hart number).words in seat_view seat.new
        ≡ made (pages_from operations.read_block w (range.addr / BLOCK_BYTES) (blocks_of range.addr range.len)) v }
    ensures touched { let v = seat_view seat.old in
        let bytes = (before (run_at (L.rules guard) v) v.hart number).state.bytes in
        result.touched ≡ find (λ a. (L.rules guard).bad_access (nibble_at bytes a)) (span range.addr range.len) }
    ensures sent { let v = seat_view seat.old in
        let bytes = (before (run_at (L.rules guard) v) v.hart number).state.bytes in
        result.sent ≡ find (λ a. (L.rules guard).bad_value (nibble_at bytes a)) (span range.addr range.len) }
{
    let first = range.addr / u32::from(BLOCK_BYTES);
    let mut op = 0;
    let mut touched = None;
    let mut sent = None;
    for i in 0..range.blocks() {
        let part = range.in_block(first + i);
        let found = read_block(monitor, seat, number, op, part.addr);
        op += found.operations;
        touched = next_touched(touched, guard, found.word, part);
        sent = next_sent(sent, guard, found.word, part);
    }
    Found { touched, sent }
}
