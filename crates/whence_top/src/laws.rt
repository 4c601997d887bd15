//! That words name one list of events, and that there is one text about them.
ghost use Rattle.std.specs.Prelude.{◌≡◌, ℕ, List};
ghost use Rattle.whence_trail.specs.declared.trail.Pair.{Pair};
ghost use Rattle.whence_top.specs.Answers.{IsAnswer};
ghost use Rattle.whence_top.specs.Asking.{AsksFor};

use core_sim::one_run;

/// Words name one list of events at most, and about the run of a job there is one text that answers them.
pub fn one_answer()
    ensures asked { (words : List (List ℕ)) (a b : List Pair) → AsksFor words a → AsksFor words b → a ≡ b }
    ensures told { (pairs : List Pair) (bytes a b : List ℕ) → IsAnswer pairs bytes a → IsAnswer pairs bytes b → a ≡ b }
{
    one_run();
}
