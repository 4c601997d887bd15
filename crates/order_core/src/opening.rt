//! The state at the start of a run.
ghost use Rattle.std.specs.Prelude.{◌≡◌, ℕ, ◌<◌, IfOk};
ghost use Rattle.order_core.specs.Course.{course};
ghost use Rattle.order_core.specs.States.{hart_in};
ghost use Rattle.order_core.specs.inner.Kept.{AreKept, IsFresh};

use crate::place::Place;
use crate::plan::PlanOps;
use crate::seek::seek;
use crate::state::HartState;
use pl_base::NoMemory;
use std::alloc::Global;

// The words of the table at the start.
pub(crate) fn opening_words<P: PlanOps>(alloc: Global, plan: &P) -> Result<Vec<u64>, NoMemory>
    ensures { IfOk result (λ words. words.items ≡ (P.planned plan.now).opening) }
{
    let mut words = Vec::new(alloc);
    for i in 0..u32::MAX {
        match plan.opening(i) {
            None => return Ok(words),
            Some(word) => words.push(word)?,
        }
    }
    Ok(words)
}

// The harts at the start.
pub(crate) fn opening_harts<P: PlanOps>(plan: &P) -> [HartState; 8]
    ensures kept { AreKept (course P.planned plan.now) result }
    ensures fresh { (h : ℕ) → IsFresh (hart_in result h) }
{
    let first = Place { number: 1, op: 0 };
    let idle = HartState {
        progress: 0,
        written: 0,
        next: first,
        met: 0,
        seen: [0; 8],
    };
    let mut harts = [idle; 8];
    for hart in 0..plan.harts() {
        let next = seek(plan, hart, first);
        harts[hart as usize] = HartState { next, ..idle };
    }
    harts
}
