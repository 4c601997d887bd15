//! What holds of every recorded log.
ghost use Rattle.std.specs.Prelude.{◌≡◌, ◌↔◌, ℕ, ◌<◌, All, List};
ghost use Rattle.pl_event.specs.declared.event.Event.{Event};
ghost use Rattle.pl_event.specs.declared.log.Line.{Line};
ghost use Rattle.pl_event.specs.declared.log.Log.{Log};
ghost use Rattle.pl_event.specs.declared.log.PageRun.{PageRun};
ghost use Rattle.pl_event.specs.Candidates.{IsCandidate, IsImpliedArc};
ghost use Rattle.pl_event.specs.Conflicts.{IsOrdered};
ghost use Rattle.pl_event.specs.Edges.{IsArc};
ghost use Rattle.pl_event.specs.Numbers.{events_of};
ghost use Rattle.pl_event.specs.Runs.{IsOpening, IsRunLog};
ghost use Rattle.conflict_alerts.specs.Following.{AllFollow};
ghost use Rattle.conflict_alerts.specs.declared.placer.Placer.{Placer};
ghost use Rattle.arc_capture.specs.declared.marker.Marker.{Marker};
ghost use Rattle.arc_capture.specs.Recorded.{AreRecorded, IsRecorded};
ghost use Rattle.arc_capture.specs.Recorder.{HasRecorded};

/// Events have one recorded log, at most, and its events are these. It is ordered, and its arcs are exactly the
/// candidates that are not implied. Where the events are those of a run, it is a log of the run.
pub fn recorded_events()
    ensures one { (harts size : ℕ) (events : List Event) (lines others : List Line) →
        AreRecorded harts size events lines → AreRecorded harts size events others → lines ≡ others }
    ensures events { (harts size : ℕ) (events : List Event) (lines : List Line) →
        AreRecorded harts size events lines → events_of lines ≡ events }
    ensures ordered { (harts block : ℕ) (pages : List PageRun) (events : List Event) (log : Log) →
        All (λ event. event.hart < harts) events → IsRecorded harts block pages events log → IsOrdered log }
    ensures least { (harts size : ℕ) (events : List Event) (lines : List Line) →
        All (λ event. event.hart < harts) events → AreRecorded harts size events lines → (u n h m : ℕ) →
        IsArc lines u n h m ↔ (IsCandidate size lines u n h m × (IsImpliedArc size lines u n h m → ⊥)) }
    ensures run { (harts block : ℕ) (pages : List PageRun) (events : List Event) (log : Log) →
        IsOpening log → AllFollow harts pages events → IsRecorded harts block pages events log → IsRunLog log }
{}

/// What a recorder gave so far are the recorded lines of the events so far, which are of harts of the run.
pub fn recorder_lines()
    ensures lines { (placer : Placer) (marker : Marker) (size : ℕ) (events : List Event) (lines : List Line) →
        HasRecorded placer marker size events lines → AreRecorded placer.harts size events lines }
    ensures inside { (placer : Placer) (marker : Marker) (size : ℕ) (events : List Event) (lines : List Line) →
        HasRecorded placer marker size events lines → All (λ event. event.hart < placer.harts) events }
{}
