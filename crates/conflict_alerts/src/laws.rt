//! What holds of every placed log.
ghost use Rattle.std.specs.Prelude.{◌≡◌, ℕ, ◌<◌, [], ◌∷◌, ◌++◌, All, List};
ghost use Rattle.pl_event.specs.declared.event.Event.{Event};
ghost use Rattle.pl_event.specs.declared.log.Log.{Log};
ghost use Rattle.pl_event.specs.Numbers.{events_of};
ghost use Rattle.pl_event.specs.Runs.{IsOpening, IsRunLog};
ghost use Rattle.conflict_alerts.specs.Following.{AllFollow};
ghost use Rattle.conflict_alerts.specs.Placing.{lines_of, next_number, placed, AreNoticed};

/// The events of a placed log are those that were placed, and one event more adds its lines at the end.
pub fn placed_events()
    ensures events { (harts : ℕ) (events : List Event) → events_of (placed harts events) ≡ events }
    ensures next { (harts : ℕ) (events : List Event) (event : Event) → placed harts (events ++ event ∷ [])
        ≡ placed harts events ++ lines_of harts (next_number harts events event.hart) event }
{}

/// Where all events are of harts of the run, the notices of the placed log lead forward, each is of an alert event that
/// comes, and each alert event has one in each other hart.
pub fn placed_notices()
    ensures { (harts : ℕ) (events : List Event) → All (λ event. event.hart < harts) events →
        AreNoticed harts (placed harts events) }
{}

/// The placed log of the events of a run is a log of it, and the events of the log of a run are those of a run, so they
/// can be placed anew.
pub fn placed_logs()
    ensures log { (log : Log) (events : List Event) → IsOpening log → AllFollow log.harts log.pages events →
        log.lines ≡ placed log.harts events → IsRunLog log }
    ensures again { (log : Log) → IsRunLog log → AllFollow log.harts log.pages (events_of log.lines) }
{}
