//! How many of a hart's first records have needs that it has seen.
ghost use Rattle.std.specs.Prelude.{◌≡◌, ℕ, ◌+◌, ◌<◌, ◌≤◌, ◌↔◌, ◌⊎◌, IsTrue, Option, Some, None, length, max, slice_index, slice_index_or};
ghost use Rattle.order_core.specs.Course.{course, length_of};
ghost use Rattle.order_core.specs.Core.{IsMet};
ghost use Rattle.order_core.specs.inner.Needs.{IsSeen, AreSeen};

use crate::plan::PlanOps;
use pl_base::layout::MAX_HARTS;
use pl_event::Arcs;

// Whether the need is not above what was seen.
fn is_seen(need: Option<u32>, seen: u32) -> bool
    ensures { IsTrue result ↔ IsSeen need seen }
{
    match need {
        None => true,
        Some(number) => number <= seen,
    }
}

// Whether all needs were seen.
fn are_seen(needs: Arcs, seen: &[u32; 8]) -> bool
    ensures { IsTrue result ↔ AreSeen needs seen.now }
{
    for u in 0..MAX_HARTS {
        if !is_seen(needs.get(u), seen[u as usize]) {
            return false;
        }
    }
    true
}

// Where the needs of the hart's records up to `from` were seen: the number up to which they were, up to `upto`.
pub(crate) fn met_up_to<P: PlanOps>(
    plan: &P,
    hart: u8,
    seen: &[u32; 8],
    from: u32,
    upto: u32,
) -> u32
    requires hart { hart < (P.planned plan.now).log.harts }
    requires upto { upto ≤ length_of (course P.planned plan.now) hart }
    requires from { from ≤ length_of (course P.planned plan.now) hart }
    requires met { IsMet (course P.planned plan.now) (slice_index seen.now) hart from }
    ensures met { IsMet (course P.planned plan.now) (slice_index seen.now) hart result }
    ensures low { result ≤ length_of (course P.planned plan.now) hart }
    ensures most { (m : ℕ) → m ≤ upto →
        IsMet (course P.planned plan.now) (slice_index seen.now) hart m → m ≤ result }
{
    for number in from..upto {
        if !are_seen(plan.needs(hart, number + 1), seen) {
            return number;
        }
    }
    from.max(upto)
}
