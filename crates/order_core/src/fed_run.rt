//! Runs of steps of the core and its feeder.
ghost use Rattle.std.specs.Prelude.{◌≡◌, ℕ, ◌<◌, ◌≤◌, ◌^◌, ◌⊎◌, length, slice_index, IfOk, IfErr, MatchResult};
ghost use Rattle.order_core.specs.Course.{course};
ghost use Rattle.order_core.specs.FedCore.{opening_fed, IsFedReached};
ghost use Rattle.order_core.specs.FedOutcomes.{IsFedRefusal, IsFedRunTo, IsFirstFedRefused};
ghost use Rattle.order_core.specs.Feeds.{IsFedCursor};
ghost use Rattle.order_core.specs.inner.KeptFed.{fed_now, FitsFed};
ghost use Rattle.order_core.specs.declared.refused.CoreRefused.TheVariants.{NotAble, NoMemory};

use crate::fed_moves::make_fed;
use crate::fed_state::FedState;
use crate::fed_step::FedStep;
use crate::feed::HartFeed;
use crate::feeding::Feeding;
use crate::opening::{opening_harts, opening_words};
use crate::plan::PlanOps;
use crate::refused::{CoreRefused, FirstRefused};
use crate::run::cursor_now;
use crate::state::CoreState;
use std::alloc::Global;

// The cursors of the harts, of records that they took.
fn taken_cursors<P: PlanOps>(plan: &P, state: &Feeding) -> [u32; 8]
    requires { FitsFed (course P.planned plan.now) state.now }
    ensures others { (h : ℕ) → (P.planned plan.now).log.harts ≤ h → slice_index result h ≡ 0 }
    ensures harts { (h : ℕ) → h < (P.planned plan.now).log.harts →
        IsFedCursor (course P.planned plan.now) (fed_now state.now) h (slice_index result h) }
{
    let mut cursors = [0; 8];
    for hart in 0..plan.harts() {
        let at = hart as usize;
        let passed = cursor_now(plan, hart, state.core.harts[at]);
        cursors[at] = passed.min(state.feeds[at].taken);
    }
    cursors
}

// Makes the steps, one after the other, up to the first that is not allowed.
fn make_all_fed<P: PlanOps>(
    plan: &P,
    state: &mut Feeding,
    steps: &[FedStep],
) -> Result<(), FirstRefused>
    requires fits { FitsFed (course P.planned plan.now) state.old }
    requires opening { fed_now state.old ≡ opening_fed (course P.planned plan.now) }
    requires few { length steps.now < 2 ^ 32 }
    ensures fits { IfOk result (λ _. FitsFed (course P.planned plan.now) state.new) }
    ensures made { IfOk result (λ _. IsFedReached (course P.planned plan.now) steps.now (fed_now state.new)) }
    ensures refused { IfErr result (λ e. IsFirstFedRefused (course P.planned plan.now) steps.now e.at) }
{
    for (at, step) in steps.iter().enumerate() {
        if !make_fed(plan, state, *step) {
            return Err(FirstRefused { at: at as u32 });
        }
    }
    Ok(())
}

// Nothing is done or produced.
fn opening_feeding<P: PlanOps>(alloc: Global, plan: &P) -> Result<Feeding, CoreRefused>
    ensures fits { IfOk result (FitsFed (course P.planned plan.now)) }
    ensures opening { IfOk result (λ state. fed_now state ≡ opening_fed (course P.planned plan.now)) }
    ensures refused { IfErr result (λ e. e ≡ NoMemory) }
{
    Ok(Feeding {
        core: CoreState {
            harts: opening_harts(plan),
            cursors: [0; 8],
            words: opening_words(alloc, plan)?,
        },
        produced: 0,
        feeds: [HartFeed::empty(); 8],
    })
}

/// Makes the steps of the core and its feeder, one after the other, from the opening state of the plan, in which
/// nothing was produced. The feeder produces the lines of the log in executed order; a chunk has at most 64 records, a
/// ring at most 16 chunks, and a hart makes no step for a record that it has not taken. In all it takes a time near the
/// number of steps and of the records and operations that they pass.
///
/// # Errors
///
/// - `NotAble` at the first step that is not allowed, counted from 0. Each step before it is allowed where it is made.
/// - `NoMemory` where there was no memory for the words of the table.
pub fn run_fed<P: PlanOps>(
    alloc: Global,
    plan: &P,
    steps: &[FedStep],
) -> Result<FedState, CoreRefused>
    requires { length steps.now < 2 ^ 32 }
    ensures ran { IfOk result (IsFedRunTo (course P.planned plan.now) steps.now) }
    ensures refused { IfErr result (IsFedRefusal (course P.planned plan.now) steps.now) }
    ensures exact { (at : ℕ) → IsFirstFedRefused (course P.planned plan.now) steps.now at →
        MatchResult result (λ _. ⊥) (λ e. (e ≡ NotAble at) ⊎ (e ≡ NoMemory)) }
{
    let mut state = opening_feeding(alloc, plan)?;
    make_all_fed(plan, &mut state, steps)?;
    state.core.cursors = taken_cursors(plan, &state);
    let Feeding {
        core,
        produced,
        feeds,
    } = state;
    Ok(FedState {
        core,
        produced,
        feeds,
    })
}
