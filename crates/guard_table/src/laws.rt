//! What holds of the table at every moment, whatever the plan and the order of the word steps.
ghost use Rattle.std.specs.Prelude.{◌≡◌, ◌≢◌, ℕ, ◌+◌, ◌<◌, ◌≤◌, slice_index};
ghost use Rattle.std.specs.List.{Contains};
ghost use Rattle.order_core.specs.declared.course.Course.{Course};
ghost use Rattle.order_core.specs.declared.course.Operation.{Operation};
ghost use Rattle.order_core.specs.declared.steps.Act.{Act};
ghost use Rattle.order_core.specs.declared.steps.Act.TheVariants.{See, Advertise, Perform};
ghost use Rattle.order_core.specs.Lanes.{HasValueOf, Meets};
ghost use Rattle.order_core.specs.Course.{course, length_of};
ghost use Rattle.order_core.specs.Lawful.{IsLawful};
ghost use Rattle.order_core.specs.Core.{opening_core, IsPassed, IsOpen, IsNextWrite};
ghost use Rattle.guard_table.specs.declared.put.Put.{Put};
ghost use Rattle.guard_table.specs.declared.view.View.{View};
ghost use Rattle.guard_table.specs.Views.{made_seat, fresh_view, freed_seat, told_by, learnt_from};
ghost use Rattle.guard_table.specs.Views.{looked, advertised, wrote, known_core};
ghost use Rattle.guard_table.specs.Rule.{Table, Represents, HoldsCore};
ghost use Rattle.guard_table.specs.Puts.{IsPutOf};
ghost use Rattle.guard_table.specs.Seats.{AreLastWords};
ghost use Rattle.guard_table.specs.Laws.{opening_table, after_step, after_writing, after_split, after_join};
ghost use Rattle.guard_table.specs.Laws.{IsHeadAt, IsHartAt, IsNoteAt, IsCoreStep, KeepsCore};

use crate::rule::CoreRule;
use crate::view::View;
use atomic_table::TableRule;
use order_core::Plan;

/// The rule that the table of a plan keeps at every moment between two word steps: its words and the views of its seats
/// represent a consistent state of the core.
pub fn rule_of_table<P: Plan>()
    ensures { (plan : P) (s : Table) → ⟦<CoreRule as TableRule<(), View, P>>⟧.holds plan s →
        HoldsCore (course P.planned plan) s }
{}

/// The words and the view of the first seat represent the opening state of the core. A step of the core leads from
/// words and views that represent a consistent state to such words and views. At the end the words are the last ones.
pub fn table_is_core()
    ensures opening { (c : Course) → ∥ IsLawful c ∥₁ → Represents c (opening_core c) (opening_table c) }
    ensures step { (c : Course) (s s' : Table) (h : ℕ) (act : Act) → HoldsCore c s → IsCoreStep c s h act s' →
        HoldsCore c s' }
    ensures last { (c : Course) (s : Table) (id : ℕ) (v : View) → HoldsCore c s → IsHeadAt s id v →
        ((h : ℕ) → h < c.log.harts → Contains v.freed h) → AreLastWords c s.words }
{}

/// Each step of a hart's seat on a word is a step of the core: a load of another progress word, a store of the own one,
/// a load of another word that the hart may read, and a write of its next operation.
pub fn word_steps_are_core_steps()
    ensures see { (c : Course) → ∥ IsLawful c ∥₁ → (s : Table) (id u : ℕ) (v : View) → IsHartAt s id v →
        u < c.log.harts → u ≢ v.hart → let n = slice_index s.words (u + 1) in
        IsCoreStep c s v.hart (See u) (after_step s id (u + 1) n (looked u n v)) }
    ensures advertise { (c : Course) → ∥ IsLawful c ∥₁ → (s : Table) (id upto : ℕ) (v : View) → IsHartAt s id v →
        v.progress ≤ upto → IsPassed c v.written (slice_index v.seen) v.hart upto →
        IsCoreStep c s v.hart (Advertise upto) (after_step s id (v.hart + 1) upto (advertised upto v)) }
    ensures read { (c : Course) → ∥ IsLawful c ∥₁ → (s : Table) (id p : ℕ) (v : View) (a : Operation) →
        IsHartAt s id v → IsOpen c (known_core v) v.hart p a → let n = slice_index s.words a.what.word in
        IsCoreStep c s v.hart (Perform a.number a.op) (after_step s id a.what.word n v) }
    ensures write { (c : Course) → ∥ IsLawful c ∥₁ → (s : Table) (id p : ℕ) (v : View) (a : Operation) (put : Put) →
        IsHartAt s id v → IsNextWrite c (known_core v) v.hart p a → IsPutOf c p a put →
        IsCoreStep c s v.hart (Perform a.number a.op) (after_writing s id v a put) }
{}

/// The steps that make seats and notes and join them change words and the state of the core by nothing.
pub fn seat_steps_keep_core()
    ensures seat { (c : Course) (s : Table) (id h : ℕ) (v : View) → IsHeadAt s id v → h < c.log.harts →
        (Contains v.made h → ⊥) → KeepsCore c s (after_split s id (made_seat h v) (fresh_view h v)) }
    ensures note { (c : Course) (s : Table) (id : ℕ) (v : View) → IsHartAt s id v →
        KeepsCore c s (after_split s id v (told_by v)) }
    ensures learn { (c : Course) (s : Table) (id other : ℕ) (v w : View) → IsHartAt s id v → IsNoteAt s other w →
        KeepsCore c s (after_join s id (learnt_from w v) other) }
    ensures give_back { (c : Course) (s : Table) (id other : ℕ) (v w : View) → IsHeadAt s id v → IsHartAt s other w →
        w.progress ≡ length_of c w.hart → KeepsCore c s (after_join s id (freed_seat w.hart v) other) }
{}

/// A read that a hart's own view allows finds its value at every moment, whatever other seats have done by then. It
/// stays allowed where its hart looks, advertises less than its record, or performs a write that does not clash with
/// it.
pub fn late_reads()
    ensures value { (c : Course) (s : Table) (id p : ℕ) (v : View) (a : Operation) → HoldsCore c s → IsHartAt s id v →
        IsOpen c (known_core v) v.hart p a → HasValueOf a.what (slice_index s.words a.what.word) }
    ensures looks { (c : Course) (p u n : ℕ) (v : View) (a : Operation) → IsOpen c (known_core v) v.hart p a →
        slice_index v.seen u ≤ n → IsOpen c (known_core (looked u n v)) v.hart p a }
    ensures advertises { (c : Course) (p upto : ℕ) (v : View) (a : Operation) → IsOpen c (known_core v) v.hart p a →
        upto < a.number → IsOpen c (known_core (advertised upto v)) v.hart p a }
    ensures writes { (c : Course) (p q : ℕ) (v : View) (a b : Operation) → IsOpen c (known_core v) v.hart p a →
        IsNextWrite c (known_core v) v.hart q b → (Meets b.what a.what → ⊥) →
        IsOpen c (known_core (wrote v)) v.hart p a }
{}
