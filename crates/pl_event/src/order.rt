//! What holds of every log whose arcs and notices lead forward.
ghost use Rattle.std.specs.Prelude.{◌≡◌, ℕ, ◌≤◌, List, ◌++◌, length, ◌↔◌};
ghost use Rattle.pl_event.specs.declared.event.Event.{Event};
ghost use Rattle.pl_event.specs.declared.log.Line.{Line};
ghost use Rattle.pl_event.specs.declared.log.Log.{Log};
ghost use Rattle.pl_event.specs.Conflicts.{AreOrdered, IsNoticed, IsOrdered, IsPair, MeetByAlert};
ghost use Rattle.pl_event.specs.Graph.{IsClock, IsForward, Path};
ghost use Rattle.pl_event.specs.Records.{line_number, records_before};
ghost use Rattle.pl_event.specs.Edges.{Into, IsFlow};
ghost use Rattle.pl_event.specs.Needs.{IsMost, IsNeed, need_of};
ghost use Rattle.pl_event.specs.Unordered.{IsFirstUnordered};

/// The edges of a log lead to later places. What a record needs of a hart is the last record there from which an edge
/// leads to it, and these edges alone make the same paths.
pub fn log_paths()
    ensures forward { (harts : ℕ) (lines : List Line) → IsFlow harts lines →
        IsForward (Into lines) (line_number lines) }
    ensures last { (harts : ℕ) (lines : List Line) → IsFlow harts lines →
        (u h m : ℕ) → IsMost (λ n. Into lines u n h m) (need_of lines u h m) }
    ensures by_needs { (harts : ℕ) (lines : List Line) → IsFlow harts lines →
        (u n h m : ℕ) → Path (Into lines) u n h m → Path (IsNeed lines) u n h m }
    ensures of_needs { (harts : ℕ) (lines : List Line) → IsFlow harts lines →
        (u n h m : ℕ) → Path (IsNeed lines) u n h m → Path (Into lines) u n h m }
{}

/// A log that grows keeps what its arcs and notices keep, and its records keep their paths and their clocks.
pub fn grown_paths()
    ensures flow { (harts : ℕ) (lines more : List Line) → IsFlow harts (lines ++ more) → IsFlow harts lines }
    ensures paths { (harts : ℕ) (lines more : List Line) → IsFlow harts (lines ++ more) →
        (u n h m : ℕ) → m ≤ records_before h lines (length lines) →
        Path (Into (lines ++ more)) u n h m ↔ Path (Into lines) u n h m }
    ensures clocks { (harts : ℕ) (lines more : List Line) → IsFlow harts (lines ++ more) →
        (h m : ℕ) (clock : ℕ → ℕ) → m ≤ records_before h lines (length lines) →
        IsClock (Into (lines ++ more)) h m clock ↔ IsClock (Into lines) h m clock }
{}

/// Two events that a notice orders have a path, and so have two events of an ordered log that conflict by an alert.
pub fn noticed_paths()
    ensures pair { (harts : ℕ) (lines : List Line) → IsFlow harts lines →
        (i j : ℕ) (a : Event) (n : ℕ) (b : Event) (m : ℕ) → IsPair lines i j a n b m →
        IsNoticed lines a n b m → Path (Into lines) a.hart n b.hart m }
    ensures alert { (harts size : ℕ) (lines : List Line) → IsFlow harts lines → AreOrdered size lines (length lines) →
        (i j : ℕ) (a : Event) (n : ℕ) (b : Event) (m : ℕ) → IsPair lines i j a n b m →
        MeetByAlert a.kind b.kind → Path (Into lines) a.hart n b.hart m }
{}

/// A log has one first pair that is not ordered, at most, and an ordered log has none.
pub fn first_unordered()
    ensures one { (log : Log) (i j : ℕ) (a : Event) (n : ℕ) (b : Event) (m : ℕ)
        (k l : ℕ) (c : Event) (x : ℕ) (d : Event) (y : ℕ) →
        IsFirstUnordered log i j a n b m → IsFirstUnordered log k l c x d y →
        (a ≡ c) × (n ≡ x) × (b ≡ d) × (m ≡ y) }
    ensures none { (log : Log) (i j : ℕ) (a : Event) (n : ℕ) (b : Event) (m : ℕ) →
        IsOrdered log → IsFirstUnordered log i j a n b m → ⊥ }
{}
