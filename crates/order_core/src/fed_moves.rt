//! One step of the core or its feeder: whether it is allowed, and the state after it.
ghost use Rattle.std.specs.Prelude.{◌≡◌, ℕ, ◌<◌, ◌≤◌, ◌⊎◌, ◌↔◌, true, false, IsTrue};
ghost use Rattle.order_core.specs.declared.fed_step.FedStep.TheVariants as fed;
ghost use Rattle.order_core.specs.Course.{course};
ghost use Rattle.order_core.specs.FedCore.{IsAllProduced, IsHeldUp};
ghost use Rattle.order_core.specs.Feeds.{IsFedConsistent};
ghost use Rattle.order_core.specs.States.{core_of};
ghost use Rattle.order_core.specs.inner.KeptFed.{fed_now, FitsFed, MayMakeFed, IsFedMade};

use crate::fed_step::FedStep;
use crate::feeding::Feeding;
use crate::moves::{has_passed, make};
use crate::plan::PlanOps;
use crate::steps::CoreStep;

// A hart makes a step of the core.
fn make_core<P: PlanOps>(plan: &P, state: &mut Feeding, step: CoreStep) -> bool
    requires fits { FitsFed (course P.planned plan.now) state.old }
    requires few { (core_of state.old.core).written step.hart < 4294967295 }
    ensures fits { result ≡ true → FitsFed (course P.planned plan.now) state.new }
    ensures made { result ≡ true → IsFedMade (course P.planned plan.now) state.old (fed.Core step) state.new }
    ensures refused { result ≡ false → MayMakeFed (course P.planned plan.now) state.old (fed.Core step) → ⊥ }
{
    if !state.has_taken(step) {
        return false;
    }
    make(plan, &mut state.core, step)
}

// A hart takes the oldest chunk of its ring.
fn take<P: PlanOps>(plan: &P, state: &mut Feeding, hart: u8) -> bool
    requires fits { FitsFed (course P.planned plan.now) state.old }
    requires consistent { IsFedConsistent (course P.planned plan.now) (fed_now state.old) }
    ensures fits { result ≡ true → FitsFed (course P.planned plan.now) state.new }
    ensures made { result ≡ true → IsFedMade (course P.planned plan.now) state.old (fed.Take hart) state.new }
    ensures refused { result ≡ false → MayMakeFed (course P.planned plan.now) state.old (fed.Take hart) → ⊥ }
{
    if plan.harts() <= hart {
        return false;
    }
    let feed = state.feeds[hart as usize];
    if feed.count == 0 || !has_passed(plan, &mut state.core, hart, feed.taken) {
        return false;
    }
    state.feeds[hart as usize] = feed.took();
    true
}

// The feeder produces the next line.
fn produce<P: PlanOps>(plan: &P, state: &mut Feeding) -> bool
    requires fits { FitsFed (course P.planned plan.now) state.old }
    requires consistent { IsFedConsistent (course P.planned plan.now) (fed_now state.old) }
    ensures fits { result ≡ true → FitsFed (course P.planned plan.now) state.new }
    ensures made { result ≡ true → IsFedMade (course P.planned plan.now) state.old fed.Produce state.new }
    ensures refused { result ≡ false → MayMakeFed (course P.planned plan.now) state.old fed.Produce → ⊥ }
{
    let Some(hart) = plan.line_hart(state.produced) else {
        return false;
    };
    let feed = state.feeds[hart as usize];
    if feed.has_full_chunk() {
        return false;
    }
    state.feeds[hart as usize] = feed.with_record();
    state.produced += 1;
    true
}

// Whether no line is left, or the next is held up.
fn is_waiting<P: PlanOps>(plan: &P, state: &Feeding) -> bool
    requires fits { FitsFed (course P.planned plan.now) state.now }
    ensures { let c = course P.planned plan.now in
        IsTrue result ↔ (IsAllProduced c (fed_now state.now) ⊎ IsHeldUp c (fed_now state.now)) }
{
    match plan.line_hart(state.produced) {
        None => true,
        Some(hart) => {
            let feed = state.feeds[hart as usize];
            feed.has_full_chunk() && feed.has_full_ring()
        }
    }
}

// The feeder offers a hart its partial chunk.
fn offer<P: PlanOps>(plan: &P, state: &mut Feeding, hart: u8) -> bool
    requires fits { FitsFed (course P.planned plan.now) state.old }
    ensures fits { result ≡ true → FitsFed (course P.planned plan.now) state.new }
    ensures made { result ≡ true → IsFedMade (course P.planned plan.now) state.old (fed.Offer hart) state.new }
    ensures refused { result ≡ false → MayMakeFed (course P.planned plan.now) state.old (fed.Offer hart) → ⊥ }
{
    if plan.harts() <= hart {
        return false;
    }
    let feed = state.feeds[hart as usize];
    if feed.partial == 0 || feed.has_full_ring() {
        return false;
    }
    if !feed.has_full_chunk() && !is_waiting(plan, state) {
        return false;
    }
    state.feeds[hart as usize] = feed.offered();
    true
}

// Makes the step where it is allowed, and says whether it was.
pub(crate) fn make_fed<P: PlanOps>(plan: &P, state: &mut Feeding, step: FedStep) -> bool
    requires fits { FitsFed (course P.planned plan.now) state.old }
    requires consistent { IsFedConsistent (course P.planned plan.now) (fed_now state.old) }
    requires few { (h : ℕ) → (core_of state.old.core).written h < 4294967295 }
    ensures fits { result ≡ true → FitsFed (course P.planned plan.now) state.new }
    ensures made { result ≡ true → IsFedMade (course P.planned plan.now) state.old step state.new }
    ensures refused { result ≡ false → MayMakeFed (course P.planned plan.now) state.old step → ⊥ }
{
    match step {
        FedStep::Core(step) => make_core(plan, state, step),
        FedStep::Take { hart } => take(plan, state, hart),
        FedStep::Produce => produce(plan, state),
        FedStep::Offer { hart } => offer(plan, state, hart),
    }
}
