//! The recorder, event by event.
ghost use Rattle.std.specs.Prelude.{◌≡◌, ℕ, ◌⊎◌, ◌≤◌, [], ◌∷◌, ◌++◌, List, IfOk, IsErr, OnErr, OnOk, true, false};
ghost use Rattle.pl_base.specs.declared.layout.TheConstants.{MAX_HARTS};
ghost use Rattle.pl_event.specs.declared.event.Event.{Event};
ghost use Rattle.pl_event.specs.declared.log.Line.{Line};
ghost use Rattle.pl_event.specs.Alerts.{is_alert_kind};
ghost use Rattle.pl_event.specs.Runs.{IsBlockSize};

use crate::marker::Marker;
use conflict_alerts::Placer;
use pl_base::NoMemory;
use pl_event::{Event, Line, is_alert};
use std::alloc::Global;

/// A placer, and a marker of its lines.
#[derive(Drop)]
pub struct Recorder {
    placer: Placer,
    marker: Marker,
    /// The placed lines of one event.
    placed: Vec<Line>,
    failed: bool,
}

impl Recorder {
    ghost use Rattle.arc_capture.specs.Recorder.{HasRecorded, MayFeed};

    /// Of no event. A run has 1 to 8 harts, and a block 16 or 4 bytes.
    pub fn new(alloc: Global, harts: u8, block: u8) -> Result<Recorder, NoMemory>
        requires harts { harts ≤ MAX_HARTS }
        requires block { IsBlockSize block }
        ensures harts { IfOk result (λ recorder. recorder.placer.harts ≡ harts) }
        ensures none { IfOk result (λ recorder. HasRecorded recorder.placer recorder.marker block [] []) }
        ensures goes_on { IfOk result (λ recorder. recorder.failed ≡ false) }
    {
        let marker = Marker::new(alloc, harts, block)?;
        Ok(Recorder {
            placer: Placer::new(harts),
            marker,
            placed: Vec::new(alloc),
            failed: false,
        })
    }

    // The lines of the next event and of its notices, in place of what `lines` held.
    fn record_told(&mut self, event: &Event, lines: &mut Vec<Line>) -> Result<(), NoMemory>
        requires { (size : ℕ) × (events : List Event) × (before : List Line)
            × MayFeed self.old.placer self.old.marker size events before event.now }
        ensures ok { (size : ℕ) (events : List Event) (before : List Line) →
            MayFeed self.old.placer self.old.marker size events before event.now → OnOk result
            (HasRecorded self.new.placer self.new.marker size (events ++ event.now ∷ []) (before ++ lines.new.items)) }
        ensures harts { self.new.placer.harts ≡ self.old.placer.harts }
        ensures failed { self.new.failed ≡ self.old.failed }
    {
        self.placed.clear();
        self.placer.place_into(event, &mut self.placed)?;
        self.marker.mark_into(&self.placed, lines)
    }

    // The line of the next event, which is no alert event, in place of what `lines` held.
    fn record_alone(&mut self, event: &Event, lines: &mut Vec<Line>) -> Result<(), NoMemory>
        requires feed { (size : ℕ) × (events : List Event) × (before : List Line)
            × MayFeed self.old.placer self.old.marker size events before event.now }
        requires alone { is_alert_kind event.now.kind ≡ false }
        ensures ok { (size : ℕ) (events : List Event) (before : List Line) →
            MayFeed self.old.placer self.old.marker size events before event.now → OnOk result
            (HasRecorded self.new.placer self.new.marker size (events ++ event.now ∷ []) (before ++ lines.new.items)) }
        ensures harts { self.new.placer.harts ≡ self.old.placer.harts }
        ensures failed { self.new.failed ≡ self.old.failed }
    {
        lines.clear();
        let line = self.placer.place_alone(event);
        let marked = self.marker.mark(&line)?;
        lines.push(marked)?;
        Ok(())
    }

    // The lines of the next event, in place of what `lines` held.
    fn record(&mut self, event: &Event, lines: &mut Vec<Line>) -> Result<(), NoMemory>
        requires { (size : ℕ) × (events : List Event) × (before : List Line)
            × MayFeed self.old.placer self.old.marker size events before event.now }
        ensures ok { (size : ℕ) (events : List Event) (before : List Line) →
            MayFeed self.old.placer self.old.marker size events before event.now → OnOk result
            (HasRecorded self.new.placer self.new.marker size (events ++ event.now ∷ []) (before ++ lines.new.items)) }
        ensures harts { self.new.placer.harts ≡ self.old.placer.harts }
        ensures failed { self.new.failed ≡ self.old.failed }
    {
        if is_alert(&event.kind) {
            self.record_told(event, lines)
        } else {
            self.record_alone(event, lines)
        }
    }

    /// The lines of the next event, in place of what `lines` held: before an alert event a notice in each other hart by
    /// rising hart, and the event with its arcs, which are the last records that conflict by a block and that it does
    /// not come after otherwise. The event is valid for the run, and fewer than 2,000,000 were given. After `NoMemory`
    /// each answer is `NoMemory`.
    pub fn feed_into(&mut self, event: &Event, lines: &mut Vec<Line>) -> Result<(), NoMemory>
        requires { (self.old.failed ≡ true) ⊎ ((size : ℕ) × (events : List Event) × (before : List Line)
            × MayFeed self.old.placer self.old.marker size events before event.now) }
        ensures ok { (size : ℕ) (events : List Event) (before : List Line) →
            MayFeed self.old.placer self.old.marker size events before event.now → OnOk result
            (HasRecorded self.new.placer self.new.marker size (events ++ event.now ∷ []) (before ++ lines.new.items)) }
        ensures harts { self.new.placer.harts ≡ self.old.placer.harts }
        ensures goes_on { OnOk result (self.new.failed ≡ false) }
        ensures stays { self.old.failed ≡ true → IsErr result }
        ensures err { OnErr result (self.new.failed ≡ true) }
    {
        if self.failed {
            return Err(NoMemory);
        }
        self.failed = true;
        self.record(event, lines)?;
        self.failed = false;
        Ok(())
    }

    /// The lines of the next event, as `feed_into` gives them.
    pub fn feed(&mut self, alloc: Global, event: &Event) -> Result<Vec<Line>, NoMemory>
        requires { (self.old.failed ≡ true) ⊎ ((size : ℕ) × (events : List Event) × (lines : List Line)
            × MayFeed self.old.placer self.old.marker size events lines event.now) }
        ensures ok { (size : ℕ) (events : List Event) (lines : List Line) →
            MayFeed self.old.placer self.old.marker size events lines event.now → IfOk result (λ more.
            HasRecorded self.new.placer self.new.marker size (events ++ event.now ∷ []) (lines ++ more.items)) }
        ensures harts { self.new.placer.harts ≡ self.old.placer.harts }
        ensures goes_on { OnOk result (self.new.failed ≡ false) }
        ensures stays { self.old.failed ≡ true → IsErr result }
        ensures err { OnErr result (self.new.failed ≡ true) }
    {
        let mut lines = Vec::new(alloc);
        self.feed_into(event, &mut lines)?;
        Ok(lines)
    }
}
