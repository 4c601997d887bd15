//! What holds of the workers of a run, whatever they are.
ghost use Rattle.std.specs.Prelude.{◌≡◌, ℕ, List};
ghost use mathlib.Core.Option.{some};
ghost use lib.ListN.{get_elem?};
ghost use Rattle.order_core.specs.declared.course.Course.{Course};
ghost use Rattle.turn_worker.specs.declared.worker.Turn.TheVariants.{Waiting, Done};
ghost use Rattle.turn_worker.specs.Workers.{WorkerView, IsSound};
ghost use Rattle.turn_worker.specs.Turns.{IsAnswer};
ghost use Rattle.turn_worker.specs.Crews.{IsCrew, HaveHeard, IsStuck, IsThrough};

use crate::worker::TurnWorker;

/// Where each worker of a run has heard how far each other one is, not all are stuck but where all are through: the one
/// with the earliest record that is not taken has what that record needs.
pub fn not_all_are_stuck<W: TurnWorker>()
    ensures { (c : Course) (ws : List W) → IsCrew W.view c ws → HaveHeard W.view ws →
        ((k : ℕ) (w : W) → get_elem? ws k ≡ some w → IsStuck (W.view w)) →
        (k : ℕ) (w : W) → get_elem? ws k ≡ some w → IsThrough (W.view w) }
{}

/// A worker that answers `Done` has taken all records of its hart. One that answers `Waiting` is stuck.
pub fn answers_tell()
    ensures done { (n : ℕ) (v w : WorkerView) → IsSound w → IsAnswer n v w Done → IsThrough w }
    ensures waiting { (n u need seen : ℕ) (v w : WorkerView) → IsAnswer n v w (Waiting u need seen) → IsStuck w }
{}
