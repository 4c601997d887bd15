//! One step of a hart: whether it is allowed, and the state after it.
ghost use Rattle.std.specs.Prelude.{◌≡◌, ℕ, ◌<◌, ◌≤◌, ◌↔◌, true, false, IsTrue, None, IfSome};
ghost use Rattle.order_core.specs.declared.course.Op.{Op};
ghost use Rattle.order_core.specs.declared.course.Operation.{Operation};
ghost use Rattle.order_core.specs.declared.steps.Act.TheVariants.{See, Advertise, Perform};
ghost use Rattle.order_core.specs.Core.{IsPassed};
ghost use Rattle.order_core.specs.Course.{course, At, IsListed};
ghost use Rattle.order_core.specs.Lawful.{IsName};
ghost use Rattle.order_core.specs.inner.Places.{place_of, end_of, ClashesAround};
ghost use Rattle.order_core.specs.States.{core_of};
ghost use Rattle.order_core.specs.inner.Kept.{Fits, IsMade, MayMake};

use crate::course::Op;
use crate::lanes::put_lanes;
use crate::needs::met_up_to;
use crate::place::Place;
use crate::plan::PlanOps;
use crate::seek::{has_clash, seek};
use crate::state::{CoreState, HartState};
use crate::steps::{Act, CoreStep};

// A hart sees another.
fn see<P: PlanOps>(plan: &P, state: &mut CoreState, hart: u8, of: u8) -> bool
    requires fits { Fits (course P.planned plan.now) state.old }
    ensures fits { result ≡ true → Fits (course P.planned plan.now) state.new }
    ensures made { result ≡ true → IsMade (course P.planned plan.now) state.old hart (See of) state.new }
    ensures refused { result ≡ false → MayMake (course P.planned plan.now) state.old hart (See of) → ⊥ }
{
    if plan.harts() <= hart || plan.harts() <= of || hart == of {
        return false;
    }
    let number = state.harts[of as usize].progress;
    let mut own = state.harts[hart as usize];
    own.seen[of as usize] = number;
    state.harts[hart as usize] = own;
    true
}

// Whether a hart has passed its records up to a number. How many of them have needs that were met is kept.
pub(crate) fn has_passed<P: PlanOps>(plan: &P, state: &mut CoreState, hart: u8, upto: u32) -> bool
    requires fits { Fits (course P.planned plan.now) state.old }
    requires hart { hart < (P.planned plan.now).log.harts }
    ensures fits { Fits (course P.planned plan.now) state.new }
    ensures same { core_of state.new ≡ core_of state.old }
    ensures passed { let k = core_of state.old in
        IsTrue result ↔ IsPassed (course P.planned plan.now) (k.written hart) (k.seen hart) hart upto }
{
    let own = state.harts[hart as usize];
    if own.next.number <= upto {
        return false;
    }
    let met = met_up_to(plan, hart, &own.seen, own.met, upto);
    state.harts[hart as usize] = HartState { met, ..own };
    upto <= met
}

// A hart sets its progress word.
fn advertise<P: PlanOps>(plan: &P, state: &mut CoreState, hart: u8, upto: u32) -> bool
    requires fits { Fits (course P.planned plan.now) state.old }
    ensures fits { result ≡ true → Fits (course P.planned plan.now) state.new }
    ensures made { result ≡ true → IsMade (course P.planned plan.now) state.old hart (Advertise upto) state.new }
    ensures refused { result ≡ false → MayMake (course P.planned plan.now) state.old hart (Advertise upto) → ⊥ }
{
    if plan.harts() <= hart {
        return false;
    }
    let own = state.harts[hart as usize];
    if upto < own.progress || own.next.number <= upto {
        return false;
    }
    let met = met_up_to(plan, hart, &own.seen, own.met, upto);
    if met < upto {
        return false;
    }
    state.harts[hart as usize] = HartState {
        progress: upto,
        met,
        ..own
    };
    true
}

// The operation of this name, where the run has one.
fn named<P: PlanOps>(plan: &P, hart: u8, number: u32, op: u32) -> Option<Op>
    ensures none { result ≡ None → (p : ℕ) (a : Operation) → At (course P.planned plan.now) p a →
        IsName hart number op a → ⊥ }
    ensures hart { IfSome result (λ o. hart < (P.planned plan.now).log.harts) }
    ensures some { IfSome result (λ o. IsListed (P.planned plan.now) hart number op o) }
{
    if plan.harts() <= hart || number == 0 || plan.len(hart) < number {
        return None;
    }
    plan.op(hart, number, op)
}

// A hart performs a write of its stream.
fn write<P: PlanOps>(plan: &P, state: &mut CoreState, hart: u8, at: Place, op: Op) -> bool
    requires fits { Fits (course P.planned plan.now) state.old }
    requires hart { hart < (P.planned plan.now).log.harts }
    requires op { IsListed (P.planned plan.now) hart at.number at.op op }
    requires is_write { op.write ≡ true }
    requires few { (core_of state.old).written hart < 4294967295 }
    ensures fits { result ≡ true → Fits (course P.planned plan.now) state.new }
    ensures made { result ≡ true →
        IsMade (course P.planned plan.now) state.old hart (Perform at.number at.op) state.new }
    ensures refused { result ≡ false →
        MayMake (course P.planned plan.now) state.old hart (Perform at.number at.op) → ⊥ }
{
    let own = state.harts[hart as usize];
    if !at.is_same(own.next) {
        return false;
    }
    let met = met_up_to(plan, hart, &own.seen, own.met, at.number);
    if met < at.number {
        return false;
    }
    let word = state.words[op.word as usize];
    state.words[op.word as usize] = put_lanes(word, op);
    state.harts[hart as usize] = HartState {
        written: own.written + 1,
        next: seek(
            plan,
            hart,
            Place {
                number: at.number,
                op: at.op + 1,
            },
        ),
        met,
        ..own
    };
    true
}

// Whether a write that clashes with the hart's read is between the read and the next write.
fn is_overtaken<P: PlanOps>(plan: &P, hart: u8, next: Place, at: Place, read: Op) -> bool
    requires hart { hart < (P.planned plan.now).log.harts }
    requires next_from { 1 ≤ next.number }
    requires next { place_of next ≤ end_of (course P.planned plan.now) hart }
    requires from_one { 1 ≤ at.number }
    requires within { place_of at ≤ end_of (course P.planned plan.now) hart }
    requires lanes { read.lanes ≤ 15 }
    ensures { IsTrue result ↔ ClashesAround (course P.planned plan.now) hart read (place_of at) (place_of next) }
{
    if at.is_earlier(next) {
        return has_clash(plan, hart, at, next, read);
    }
    has_clash(plan, hart, next, at, read)
}

// A hart performs a read of its stream.
fn read<P: PlanOps>(plan: &P, state: &mut CoreState, hart: u8, at: Place, op: Op) -> bool
    requires fits { Fits (course P.planned plan.now) state.old }
    requires hart { hart < (P.planned plan.now).log.harts }
    requires op { IsListed (P.planned plan.now) hart at.number at.op op }
    requires is_read { op.write ≡ false }
    ensures fits { result ≡ true → Fits (course P.planned plan.now) state.new }
    ensures made { result ≡ true →
        IsMade (course P.planned plan.now) state.old hart (Perform at.number at.op) state.new }
    ensures refused { result ≡ false →
        MayMake (course P.planned plan.now) state.old hart (Perform at.number at.op) → ⊥ }
{
    let own = state.harts[hart as usize];
    if at.number <= own.progress {
        return false;
    }
    let met = met_up_to(plan, hart, &own.seen, own.met, at.number);
    if met < at.number || is_overtaken(plan, hart, own.next, at, op) {
        return false;
    }
    state.harts[hart as usize] = HartState { met, ..own };
    true
}

// A hart performs an operation of its stream.
fn perform<P: PlanOps>(plan: &P, state: &mut CoreState, hart: u8, number: u32, op: u32) -> bool
    requires fits { Fits (course P.planned plan.now) state.old }
    requires few { (core_of state.old).written hart < 4294967295 }
    ensures fits { result ≡ true → Fits (course P.planned plan.now) state.new }
    ensures made { result ≡ true →
        IsMade (course P.planned plan.now) state.old hart (Perform number op) state.new }
    ensures refused { result ≡ false → MayMake (course P.planned plan.now) state.old hart (Perform number op) → ⊥ }
{
    let at = Place { number, op };
    match named(plan, hart, number, op) {
        None => false,
        Some(found) if found.write => write(plan, state, hart, at, found),
        Some(found) => read(plan, state, hart, at, found),
    }
}

// Makes the step where it is allowed, and says whether it was.
pub(crate) fn make<P: PlanOps>(plan: &P, state: &mut CoreState, step: CoreStep) -> bool
    requires fits { Fits (course P.planned plan.now) state.old }
    requires few { (core_of state.old).written step.hart < 4294967295 }
    ensures fits { result ≡ true → Fits (course P.planned plan.now) state.new }
    ensures made { result ≡ true → IsMade (course P.planned plan.now) state.old step.hart step.act state.new }
    ensures refused { result ≡ false → MayMake (course P.planned plan.now) state.old step.hart step.act → ⊥ }
{
    match step.act {
        Act::See { of } => see(plan, state, step.hart, of),
        Act::Advertise { upto } => advertise(plan, state, step.hart, upto),
        Act::Perform { number, op } => perform(plan, state, step.hart, number, op),
    }
}
