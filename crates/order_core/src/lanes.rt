//! The lanes of a word that operations share and write.
ghost use Rattle.std.specs.Prelude.{◌≡◌, ℕ, ◌+◌, ◌*◌, ◌/◌, ◌%◌, ◌^◌, ◌<◌, ◌≤◌, ◌==◌, ◌↔◌, IsTrue, if◌then◌else◌};
ghost use Rattle.order_core.specs.Lanes.{lane, Lands, Meets};
ghost use Rattle.order_core.specs.inner.Places.{ClashesIf};

use crate::course::Op;

// Whether lane `j`, below 4, is among the lanes.
fn has_lane(lanes: u8, j: u8) -> bool
    requires { j < 4 }
    ensures { result ≡ (lanes / 2 ^ j % 2 == 1) }
{
    (lanes >> j) % 2 == 1
}

// Whether they share a lane.
fn share_lane(a: u8, b: u8) -> bool
    requires { a ≤ 15 }
    ensures { IsTrue result ↔ ((j : ℕ) × (a / 2 ^ j % 2 ≡ 1) × (b / 2 ^ j % 2 ≡ 1)) }
{
    for j in 0..4 {
        if has_lane(a, j) && has_lane(b, j) {
            return true;
        }
    }
    false
}

// Lane `j`, below 4, of what an operation leaves in a word.
fn lane_after(word: u64, value: u64, lanes: u8, j: u8) -> u64
    requires { j < 4 }
    ensures { result ≡ (if lanes / 2 ^ j % 2 == 1 then lane j value else lane j word) }
{
    let from = if has_lane(lanes, j) { value } else { word };
    (from >> (16 * j)) % 65536
}

// The word with the write's value in its lanes.
pub(crate) fn put_lanes(word: u64, op: Op) -> u64
    ensures { Lands op word result }
{
    let a = lane_after(word, op.value, op.lanes, 0);
    let b = lane_after(word, op.value, op.lanes, 1);
    let c = lane_after(word, op.value, op.lanes, 2);
    let d = lane_after(word, op.value, op.lanes, 3);
    a + 65536 * b + 4294967296 * c + 281474976710656 * d
}

// Whether they are on one word and share a lane.
fn do_meet(op: Op, read: Op) -> bool
    requires { read.lanes ≤ 15 }
    ensures { IsTrue result ↔ Meets op read }
{
    op.word == read.word && share_lane(read.lanes, op.lanes)
}

// Whether there is a write that clashes with the read.
pub(crate) fn is_clashing(found: Option<Op>, read: Op) -> bool
    requires { read.lanes ≤ 15 }
    ensures { IsTrue result ↔ ClashesIf found read }
{
    match found {
        None => false,
        Some(op) => op.write && do_meet(op, read),
    }
}
