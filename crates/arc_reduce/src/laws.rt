//! What a reduced log has in common with the full one.
ghost use Rattle.std.specs.Prelude.{◌≡◌, ◌↔◌, ℕ, List, Option, [], ◌∷◌, ◌++◌};
ghost use Rattle.pl_event.specs.declared.event.Event.{Event};
ghost use Rattle.pl_event.specs.declared.log.Line.{Line};
ghost use Rattle.pl_event.specs.declared.log.Log.{Log};
ghost use Rattle.pl_event.specs.Conflicts.{access_of, AreOrdered, IsPair, ShareBlock};
ghost use Rattle.pl_event.specs.Candidates.{IsCandidate, IsImpliedArc};
ghost use Rattle.pl_event.specs.Edges.{Into, IsArc, IsFlow};
ghost use Rattle.pl_event.specs.Graph.{Path};
ghost use Rattle.pl_event.specs.Numbers.{hart_of};
ghost use Rattle.pl_event.specs.Runs.{IsRunLog};
ghost use Rattle.arc_reduce.specs.Drawn.{HaveEight, IsDrawn, NameAlerts};
ghost use Rattle.arc_reduce.specs.Reduction.{IsReduced, AreChosen};
ghost use Rattle.arc_reduce.specs.Taken.{with_arcs, with_line, next_number};

/// A reduced log has the paths of the full one, so it orders the same events, and its arcs and notices lead forward.
pub fn reduced_logs()
    ensures flow { (harts : ℕ) (lines full : List Line) → IsFlow harts full → IsReduced lines full →
        IsFlow harts lines }
    ensures paths { (harts : ℕ) (lines full : List Line) → IsFlow harts full → IsReduced lines full →
        (u n h m : ℕ) → Path (Into lines) u n h m ↔ Path (Into full) u n h m }
    ensures ordered { (harts : ℕ) (lines full : List Line) → IsFlow harts full → IsReduced lines full →
        (size upto : ℕ) → AreOrdered size lines upto ↔ AreOrdered size full upto }
{}

/// A log is reduced line by line: one line more, with the candidates that are not spare, is one line more of the
/// reduced log.
pub fn grown_reduction()
    ensures first { IsReduced [] [] }
    ensures next { (harts : ℕ) (lines full : List Line) (line : Line) (candidates kept : List (Option ℕ)) →
        IsFlow harts (with_line full line candidates) → IsReduced lines full →
        AreChosen (with_line full line candidates) (hart_of line.what) (next_number full line) candidates kept →
        IsReduced (with_line lines line kept) (with_line full line candidates) }
{}

/// Where the full log has exactly the candidates by blocks, the arcs of the reduced log are exactly the candidates that
/// are not implied, and they order each two accesses that conflict.
pub fn drawn_candidates()
    ensures least { (size harts : ℕ) (lines full : List Line) → IsFlow harts full → IsDrawn size full →
        NameAlerts full → IsReduced lines full → (u n h m : ℕ) →
        IsArc lines u n h m ↔ (IsCandidate size lines u n h m × (IsImpliedArc size lines u n h m → ⊥)) }
    ensures ordered { (size harts : ℕ) (lines full : List Line) → IsFlow harts full → IsDrawn size full →
        IsReduced lines full → (i j : ℕ) (a : Event) (n : ℕ) (b : Event) (m : ℕ) → IsPair lines i j a n b m →
        ShareBlock (access_of size a.kind) (access_of size b.kind) → Path (Into lines) a.hart n b.hart m }
{}

/// The reduced log of a run's log is the log of that run.
pub fn recorded_logs()
    ensures { (log reduced : Log) → IsRunLog log → reduced.harts ≡ log.harts → reduced.block ≡ log.block →
        reduced.pages ≡ log.pages → HaveEight reduced.lines → IsReduced reduced.lines log.lines → IsRunLog reduced }
{}
