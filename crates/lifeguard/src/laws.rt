//! What holds of every lifeguard's rules.
ghost use Rattle.std.specs.Prelude.{◌≡◌, ◌≢◌, ◌≤◌, ℕ, List, length};
ghost use Rattle.pl_event.specs.declared.event.Event.{Event};
ghost use Rattle.pl_event.specs.declared.event.Kind.{Kind};
ghost use Rattle.pl_event.specs.declared.log.PageRun.{PageRun};
ghost use Rattle.lifeguard.specs.declared.report.EventPlace.{EventPlace};
ghost use Rattle.lifeguard.specs.Rules.{Rules, KeepsLaws};
ghost use Rattle.lifeguard.specs.State.{State};
ghost use Rattle.lifeguard.specs.Ranges.{IsInRange, reports_on};
ghost use Rattle.lifeguard.specs.Plain.{rule, reports_of, plain_result};

/// An event makes at most three reports.
pub fn few_reports()
    ensures { (rules : Rules) (at : EventPlace) (kind : Kind) (state : State) →
        length (reports_of rules at kind state) ≤ 3 }
{}

/// After any events nibbles are below 8 and masks below 16.
pub fn values_in_range()
    ensures { (rules : Rules) → KeepsLaws rules → (pages : List PageRun) (events : List Event) →
        IsInRange (plain_result rules pages events) }
{}

/// An event changes no mask of another hart, and adds no report of another hart.
pub fn other_harts_keep()
    ensures masks { (rules : Rules) (at : EventPlace) (kind : Kind) (state : State) (hart register : ℕ) → hart ≢ at.hart
        → (rule rules at kind state).masks hart register ≡ state.masks hart register }
    ensures reports { (rules : Rules) (at : EventPlace) (kind : Kind) (state : State) (hart : ℕ) → hart ≢ at.hart
        → reports_on hart (rule rules at kind state).reports ≡ reports_on hart state.reports }
{}
