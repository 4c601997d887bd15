//! The reports of an event.
ghost use Rattle.std.specs.Prelude.{◌≡◌, ◌+◌, ◌≤◌, ◌++◌, length};
ghost use Rattle.lifeguard.specs.Plain.{misdeeds, reported};
ghost use Rattle.worker_records.specs.Reports.{all_reports};
ghost use Rattle.worker_records.specs.States.{spare};

use crate::state::{Found, State};
use lifeguard::{EventPlace, Lifeguard, Name, Report, ReportKind, misdeed, register_report};
use pl_event::Kind;

impl State {
    // Adds a report at what was found.
    fn tell(&mut self, at: EventPlace, kind: ReportKind, found: Option<u32>)
        requires { length (reported at kind found) ≤ spare self.old }
        ensures reports { self.new.reports.items ≡ self.old.reports.items ++ reported at kind found }
        ensures spare { spare self.new + length (reported at kind found) ≡ spare self.old }
        ensures others { self.new ≡ record self.old { reports = self.new.reports } }
    {
        if let Some(addr) = found {
            self.reports.push_reserved(Report {
                place: at.place,
                hart: at.hart,
                event: at.number,
                kind,
                addr,
            });
        }
    }

    // Adds the report of the event itself, which a taint check leaves out.
    fn tell_misdeed<L: Lifeguard>(&mut self, guard: L, at: EventPlace, kind: &Kind)
        requires { length (misdeeds (L.rules guard) at kind.now) ≤ spare self.old }
        ensures reports { self.new.reports.items
            ≡ self.old.reports.items ++ misdeeds (L.rules guard) at kind.now }
        ensures spare { spare self.new + length (misdeeds (L.rules guard) at kind.now) ≡ spare self.old }
        ensures others { self.new ≡ record self.old { reports = self.new.reports } }
    {
        match guard.name() {
            Name::Taint => {}
            Name::Addr | Name::Mem => {
                if let Some((deed, addr)) = misdeed(kind) {
                    self.tell(at, deed, Some(addr));
                }
            }
        }
    }

    /// Adds the reports of an event, in order.
    pub fn tell_all<L: Lifeguard>(
        &mut self,
        guard: L,
        at: EventPlace,
        kind: &Kind,
        marked: Option<u32>,
        found: Found,
    )
        requires { length (all_reports (L.rules guard) at kind.now marked found) ≤ spare self.old }
        ensures reports { self.new.reports.items
            ≡ self.old.reports.items ++ all_reports (L.rules guard) at kind.now marked found }
        ensures spare { spare self.new + length (all_reports (L.rules guard) at kind.now marked found)
            ≡ spare self.old }
        ensures others { self.new ≡ record self.old { reports = self.new.reports } }
    {
        self.tell(at, register_report(kind), marked);
        self.tell(at, ReportKind::Access, found.touched);
        self.tell(at, ReportKind::Undef, found.sent);
        self.tell_misdeed(guard, at, kind);
    }
}
