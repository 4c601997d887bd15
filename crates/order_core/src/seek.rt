//! The next write of a hart, and the writes that clash with a read.
ghost use Rattle.std.specs.Prelude.{◌≡◌, ℕ, ◌+◌, ◌<◌, ◌≤◌, ◌↔◌, true, false, IsTrue, MatchOption};
ghost use Rattle.order_core.specs.Course.{course, length_of};
ghost use Rattle.order_core.specs.Counts.{writes_before};
ghost use Rattle.order_core.specs.inner.Places.{place_of, end_of, HasWriteAt, ClashesBetween};

use crate::course::Op;
use crate::lanes::is_clashing;
use crate::place::Place;
use crate::plan::PlanOps;

// Whether the operation is a write.
fn is_write(found: Option<Op>) -> bool
    ensures { MatchOption found (result ≡ false) (λ op. result ≡ op.write) }
{
    match found {
        None => false,
        Some(op) => op.write,
    }
}

// The place next_place the operation that was found there; where there is none, the first of the next record.
fn next_place(at: Place, found: Option<Op>) -> Place
    requires number { at.number < 4294967295 }
    requires op { MatchOption found (Unit {0}) (λ op. at.op < 4294967295) }
    ensures { MatchOption found (result ≡ record { number = at.number + 1; op = 0 })
        (λ op. result ≡ record { number = at.number; op = at.op + 1 }) }
{
    match found {
        None => Place {
            number: at.number + 1,
            op: 0,
        },
        Some(_) => Place {
            number: at.number,
            op: at.op + 1,
        },
    }
}

// The first write of the hart from a place on; where there is none, the place next_place its last record.
pub(crate) fn seek<P: PlanOps>(plan: &P, hart: u8, from: Place) -> Place
    requires hart { hart < (P.planned plan.now).log.harts }
    requires from_one { 1 ≤ from.number }
    requires within { place_of from ≤ end_of (course P.planned plan.now) hart }
    ensures from_one { 1 ≤ result.number }
    ensures within { place_of result ≤ end_of (course P.planned plan.now) hart }
    ensures count { let c = course P.planned plan.now in
        writes_before c hart result.number result.op ≡ writes_before c hart from.number from.op }
    ensures there { let c = course P.planned plan.now in
        result.number ≤ length_of c hart → HasWriteAt c hart result }
{
    let len = plan.len(hart);
    let mut at = from;
    while at.number <= len {
        let found = plan.op(hart, at.number, at.op);
        if is_write(found) {
            return at;
        }
        at = next_place(at, found);
    }
    at
}

// Whether a write of the hart from one place on, before another, clashes with the read.
pub(crate) fn has_clash<P: PlanOps>(plan: &P, hart: u8, from: Place, to: Place, read: Op) -> bool
    requires hart { hart < (P.planned plan.now).log.harts }
    requires from_one { 1 ≤ from.number }
    requires within { place_of to ≤ end_of (course P.planned plan.now) hart }
    requires lanes { read.lanes ≤ 15 }
    ensures { IsTrue result ↔ ClashesBetween (course P.planned plan.now) hart read (place_of from) (place_of to) }
{
    let mut at = from;
    while at.is_earlier(to) {
        let found = plan.op(hart, at.number, at.op);
        if is_clashing(found, read) {
            return true;
        }
        at = next_place(at, found);
    }
    false
}
