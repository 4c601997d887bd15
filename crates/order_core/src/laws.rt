//! What holds of the core's states, whatever the plan and the order of the steps.
ghost use Rattle.std.specs.Prelude.{◌≡◌, ◌≢◌, ℕ, ◌+◌, ◌<◌, ◌≤◌, true, false, List, length};
ghost use Rattle.pl_base.specs.declared.layout.TheConstants.{LANES};
ghost use Rattle.pl_event.specs.declared.log.Log.{Log};
ghost use Rattle.pl_event.specs.Needs.{IsNeed};
ghost use Rattle.order_core.specs.declared.course.Course.{Course};
ghost use Rattle.order_core.specs.declared.course.Op.{Op};
ghost use Rattle.order_core.specs.declared.course.Operation.{Operation};
ghost use Rattle.order_core.specs.declared.fed_step.FedStep.{FedStep};
ghost use Rattle.order_core.specs.declared.steps.Act.{Act};
ghost use Rattle.order_core.specs.declared.steps.CoreStep.{CoreStep};
ghost use Rattle.order_core.specs.Lanes.{lane, Lands};
ghost use Rattle.order_core.specs.Course.{Planned, course_of, operation_of, last_lane, length_of, writes_of};
ghost use Rattle.order_core.specs.Lawful.{IsLawful, IsLawfulPlan, HasValues};
ghost use Rattle.order_core.specs.Core.{Core, opening_core, after_write, IsMet, IsPassed, IsCursor};
ghost use Rattle.order_core.specs.Core.{IsConsistent, IsOpen, IsNextWrite, IsFinished};
ghost use Rattle.order_core.specs.Runs.{Makes, IsReached};
ghost use Rattle.order_core.specs.Waits.{WaitsFor};
ghost use Rattle.order_core.specs.FedCore.{FedCore, opening_fed, FedMakes};
ghost use Rattle.order_core.specs.Feeds.{IsFedConsistent, HasFedMove, IsHandingOut};
ghost use Rattle.order_core.specs.Freed.{HasEnded, after_free};
ghost use Rattle.order_core.specs.Turns.{HasTurn, HasComeTo, HasComeToEnd};
ghost use Rattle.order_core.specs.Guarantees.{ReadsFindValues, WritesFindLanes, ReadsStayOpen, HasLastWords};
ghost use Rattle.order_core.specs.Guarantees.{HasMove, HasFewMoves};
ghost use Rattle.order_core.specs.Shapes.{Shape};
ghost use Rattle.order_core.specs.Filled.{words_after, AllFit, AreLawfulShapes, filled_plan};

/// The opening state is consistent, and each allowed step keeps a state so. In a consistent state a read that is open
/// finds its value, a next write finds what the sequential run has before it, and at the end the words are the last
/// ones of that run.
pub fn core_is_sequential()
    ensures opening { (c : Course) → ∥ IsLawful c ∥₁ → IsConsistent c (opening_core c) }
    ensures step { (c : Course) → ∥ IsLawful c ∥₁ → (k k' : Core) (h : ℕ) (act : Act) → IsConsistent c k →
        Makes c k h act k' → IsConsistent c k' }
    ensures reads { (c : Course) → ∥ IsLawful c ∥₁ → (k : Core) → IsConsistent c k → ReadsFindValues c k }
    ensures writes { (c : Course) → ∥ IsLawful c ∥₁ → (k : Core) → IsConsistent c k → WritesFindLanes c k }
    ensures last { (c : Course) → ∥ IsLawful c ∥₁ → (k : Core) → IsConsistent c k → IsFinished c k → HasLastWords c k }
{}

/// A read is open when its hart comes to it. In a consistent state it stays open, and finds the same in its lanes,
/// after each allowed step of another hart, and after each of its own hart that neither advertises its record nor
/// performs a write that clashes with it.
pub fn open_reads()
    ensures opened { (plan : Planned) → ∥ IsLawful (course_of plan) ∥₁ → (k : Core) (h m i : ℕ) (o : Op) →
        HasTurn plan k h m i o → o.write ≡ false →
        (p : ℕ) × IsOpen (course_of plan) k h p (operation_of h m i o) }
    ensures kept { (c : Course) → ∥ IsLawful c ∥₁ → (k : Core) → IsConsistent c k → ReadsStayOpen c k }
{}

/// A hart begins at its first record. Where it has come to a write, it may make it; after an operation it has come to
/// the next one. At the end of a record it has passed the record, and has come to the next one where its needs are met.
pub fn operations_in_turn()
    ensures first { (plan : Planned) → ∥ IsLawful (course_of plan) ∥₁ → (h : ℕ) → IsMet (course_of plan) (λ u. 0) h 1 →
        HasComeTo (course_of plan) (opening_core (course_of plan)) h 1 0 }
    ensures write { (plan : Planned) → ∥ IsLawful (course_of plan) ∥₁ → (k : Core) (h m i : ℕ) (o : Op) →
        HasTurn plan k h m i o → o.write ≡ true →
        (p : ℕ) × IsNextWrite (course_of plan) k h p (operation_of h m i o) }
    ensures after_read { (plan : Planned) → ∥ IsLawful (course_of plan) ∥₁ → (k : Core) (h m i : ℕ) (o : Op) →
        HasTurn plan k h m i o → o.write ≡ false → HasComeTo (course_of plan) k h m (i + 1) }
    ensures after_write { (plan : Planned) → ∥ IsLawful (course_of plan) ∥₁ → (k : Core) (h m i : ℕ) (o : Op) →
        HasTurn plan k h m i o → o.write ≡ true → (n : ℕ) →
        HasComeTo (course_of plan) (after_write k (operation_of h m i o) n) h m (i + 1) }
    ensures passed { (plan : Planned) → ∥ IsLawful (course_of plan) ∥₁ → (k : Core) (h m i : ℕ) →
        HasComeToEnd plan k h m i → IsPassed (course_of plan) (k.written h) (k.seen h) h m }
    ensures next { (plan : Planned) → ∥ IsLawful (course_of plan) ∥₁ → (k : Core) (h m i : ℕ) →
        HasComeToEnd plan k h m i → IsMet (course_of plan) (k.seen h) h (m + 1) →
        HasComeTo (course_of plan) k h (m + 1) 0 }
{}

/// In each consistent state that is not finished some hart may make a step that changes it. In a run no more steps that
/// change the state follow each other than there are writes, and for each hart records of the others, and records.
pub fn never_stuck()
    ensures moves { (c : Course) → ∥ IsLawful c ∥₁ → (k : Core) → IsConsistent c k → (IsFinished c k → ⊥) →
        ∥ HasMove c k ∥₁ }
    ensures bound { (c : Course) → ∥ IsLawful c ∥₁ → (steps : List CoreStep) (k : Core) → IsReached c steps k →
        HasFewMoves c k }
{}

/// The core beside its feeder: the opening state is consistent, and each allowed step keeps a state so. In each
/// consistent state that is not finished a worker or the feeder may make a step that changes it. Each step of the
/// feeder, and each in which a hart takes a chunk, changes the state.
pub fn fed_core_never_stuck()
    ensures opening { (c : Course) → ∥ IsLawful c ∥₁ → IsFedConsistent c (opening_fed c) }
    ensures step { (c : Course) → ∥ IsLawful c ∥₁ → (f f' : FedCore) (s : FedStep) → IsFedConsistent c f →
        FedMakes c f s f' → IsFedConsistent c f' }
    ensures moves { (c : Course) → ∥ IsLawful c ∥₁ → (f : FedCore) → IsFedConsistent c f → (IsFinished c f.core → ⊥) →
        ∥ HasFedMove c f ∥₁ }
    ensures handing_out { (c : Course) (f f' : FedCore) (s : FedStep) → IsHandingOut s → FedMakes c f s f' → f' ≢ f }
{}

/// A hart that waits for another has a record next whose needs are not met. Where a hart has advertised all that it has
/// passed, and waits for no other, the needs of its next record are met.
pub fn waiting_harts()
    ensures blocked { (c : Course) (k : Core) (h u need : ℕ) → WaitsFor c k h u need →
        IsMet c (k.seen h) h (k.progress h + 1) → ⊥ }
    ensures free { (c : Course) (k : Core) (h : ℕ) → IsCursor c (k.written h) (k.seen h) h (k.progress h) →
        ((u need : ℕ) → WaitsFor c k h u need → ⊥) → IsMet c (k.seen h) h (k.progress h + 1) }
{}

/// A hart that has advertised its last record may free its seat, and then counts as one that has performed all its
/// writes and seen each progress word. So it has passed all its records, each need of them is at most the progress word
/// of the hart that it names, and the state stays consistent.
pub fn freed_harts()
    ensures needs { (c : Course) (k : Core) → IsConsistent c k → (h : ℕ) → HasEnded c k h → (u n m : ℕ) →
        IsNeed c.log.lines u n h m → m ≤ length_of c h → n ≤ k.progress u }
    ensures passed { (c : Course) (k : Core) → IsConsistent c k → (h : ℕ) → HasEnded c k h →
        IsPassed c (writes_of c h) k.progress h (length_of c h) }
    ensures freed { (c : Course) → ∥ IsLawful c ∥₁ → (k : Core) → IsConsistent c k → (h : ℕ) → HasEnded c k h →
        IsConsistent c (after_free c k h) }
{}

/// That the operations of a plan are of records of its run, and in order, holds of each: the other laws make it lawful.
pub fn plan_is_lawful()
    ensures { (plan : Planned) → IsLawfulPlan plan → IsLawful (course_of plan) }
{}

/// Where the operations of each record are filled from the words as they are, each read has its value, and the last
/// words of the sequential run are the words after the last record. So the laws on the log, on words and lanes, and on
/// paths make such a plan lawful.
pub fn filled_plans()
    ensures values { (shapes : ℕ → (ℕ → ℕ) → List Shape) (log : Log) (opening : List ℕ) →
        AllFit shapes opening (length log.lines) → HasValues (course_of (filled_plan shapes log opening)) }
    ensures last { (shapes : ℕ → (ℕ → ℕ) → List Shape) (log : Log) (opening : List ℕ) →
        AllFit shapes opening (length log.lines) → (w j : ℕ) → j < LANES →
        last_lane (course_of (filled_plan shapes log opening)) w j ≡
        lane j (words_after shapes opening (length log.lines) w) }
    ensures lawful { (shapes : ℕ → (ℕ → ℕ) → List Shape) (log : Log) (opening : List ℕ) →
        AreLawfulShapes shapes log opening → IsLawful (course_of (filled_plan shapes log opening)) }
{}
