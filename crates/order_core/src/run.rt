//! Runs of steps over a plan.
ghost use Rattle.std.specs.Prelude.{◌≡◌, ℕ, ◌+◌, ◌<◌, ◌≤◌, ◌^◌, ◌⊎◌, length, slice_index, IfOk, IfErr, MatchResult};
ghost use Rattle.order_core.specs.Course.{course};
ghost use Rattle.order_core.specs.Core.{opening_core, IsCursor};
ghost use Rattle.order_core.specs.Runs.{IsReached};
ghost use Rattle.order_core.specs.States.{hart_in, core_of};
ghost use Rattle.order_core.specs.inner.Kept.{IsKept, AreKept, Fits};
ghost use Rattle.order_core.specs.Outcomes.{IsFirstRefused, IsRefusal, IsRunTo, ReadsAreSequential};
ghost use Rattle.order_core.specs.declared.refused.CoreRefused.TheVariants.{NotAble, NoMemory};

use crate::moves::make;
use crate::needs::met_up_to;
use crate::opening::{opening_harts, opening_words};
use crate::plan::PlanOps;
use crate::refused::{CoreRefused, FirstRefused};
use crate::state::{CoreState, HartState};
use crate::steps::CoreStep;
use std::alloc::Global;

// The cursor of a hart.
pub(crate) fn cursor_now<P: PlanOps>(plan: &P, hart: u8, own: HartState) -> u32
    requires hart { hart < (P.planned plan.now).log.harts }
    requires kept { IsKept (course P.planned plan.now) hart own }
    ensures { IsCursor (course P.planned plan.now) own.written (slice_index own.seen) hart result }
{
    let below = own.next.number - 1;
    below.min(met_up_to(plan, hart, &own.seen, own.met, below))
}

// The cursors of the harts.
fn cursors_now<P: PlanOps>(plan: &P, harts: &[HartState; 8]) -> [u32; 8]
    requires { AreKept (course P.planned plan.now) harts.now }
    ensures others { (h : ℕ) → (P.planned plan.now).log.harts ≤ h → slice_index result h ≡ 0 }
    ensures harts { (h : ℕ) → h < (P.planned plan.now).log.harts → let own = hart_in harts.now h in
        IsCursor (course P.planned plan.now) own.written (slice_index own.seen) h (slice_index result h) }
{
    let mut cursors = [0; 8];
    for hart in 0..plan.harts() {
        cursors[hart as usize] = cursor_now(plan, hart, harts[hart as usize]);
    }
    cursors
}

// Makes the steps, one after the other, up to the first that is not allowed.
fn make_all<P: PlanOps>(
    plan: &P,
    state: &mut CoreState,
    steps: &[CoreStep],
) -> Result<(), FirstRefused>
    requires fits { Fits (course P.planned plan.now) state.old }
    requires opening { core_of state.old ≡ opening_core (course P.planned plan.now) }
    requires few { length steps.now < 2 ^ 32 }
    ensures fits { IfOk result (λ _. Fits (course P.planned plan.now) state.new) }
    ensures made { IfOk result (λ _. IsReached (course P.planned plan.now) steps.now (core_of state.new)) }
    ensures refused { IfErr result (λ e. IsFirstRefused (course P.planned plan.now) steps.now e.at) }
{
    for (at, step) in steps.iter().enumerate() {
        if !make(plan, state, *step) {
            return Err(FirstRefused { at: at as u32 });
        }
    }
    Ok(())
}

/// Makes the steps, one after the other, from the opening state of the plan. In all it takes a time near the number of
/// steps and of the records and operations that they pass; a read that is made out of its turn also passes the
/// operations between it and its hart's next write.
///
/// # Errors
///
/// - `NotAble` at the first step that is not allowed, counted from 0. Each step before it is allowed where it is made.
/// - `NoMemory` where there was no memory for the words of the table.
pub fn run_core<P: PlanOps>(
    alloc: Global,
    plan: &P,
    steps: &[CoreStep],
) -> Result<CoreState, CoreRefused>
    requires { length steps.now < 2 ^ 32 }
    ensures ran { IfOk result (IsRunTo (course P.planned plan.now) steps.now) }
    ensures reads { ReadsAreSequential (course P.planned plan.now) steps.now }
    ensures refused { IfErr result (IsRefusal (course P.planned plan.now) steps.now) }
    ensures exact { (at : ℕ) → IsFirstRefused (course P.planned plan.now) steps.now at →
        MatchResult result (λ _. ⊥) (λ e. (e ≡ NotAble at) ⊎ (e ≡ NoMemory)) }
{
    let mut state = CoreState {
        harts: opening_harts(plan),
        cursors: [0; 8],
        words: opening_words(alloc, plan)?,
    };
    make_all(plan, &mut state, steps)?;
    state.cursors = cursors_now(plan, &state.harts);
    Ok(state)
}
