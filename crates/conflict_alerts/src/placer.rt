//! The placer, event by event.
ghost use Rattle.std.specs.Prelude.{◌≡◌, ℕ, ◌+◌, ◌^◌, ◌<◌, ◌≤◌, [], ◌∷◌, ◌++◌, List, length, false, IfOk, OnOk, OnErr, slice_index};
ghost use Rattle.pl_base.specs.declared.layout.TheConstants.{MAX_HARTS};
ghost use Rattle.pl_event.specs.declared.event.Event.{Event};
ghost use Rattle.pl_event.specs.declared.log.Line.{Line};
ghost use Rattle.pl_event.specs.Alerts.{is_alert_kind};
ghost use Rattle.pl_event.specs.Numbers.{hart_of};
ghost use Rattle.conflict_alerts.specs.Placing.{lines_of, next_number, notice_to, notices_below, told_below};

use pl_base::NoMemory;
use pl_event::{Arcs, Event, Kind, Line, Point, Record, is_alert, record_hart};
use std::alloc::Global;

/// How many records each hart of a run has so far.
#[derive(Drop)]
pub struct Placer {
    harts: u8,
    records: [u32; 8],
}

impl Placer {
    ghost use Rattle.conflict_alerts.specs.Placer.{Counts, HasPlaced, MayPlace};

    /// Of no event. A run has 1 to 8 harts.
    pub fn new(harts: u8) -> Placer
        requires { harts ≤ MAX_HARTS }
        ensures { (result.harts ≡ harts) × HasPlaced result [] }
    {
        Placer {
            harts,
            records: [0; 8],
        }
    }

    // One more line.
    fn add(&mut self, line: Line, lines: &mut Vec<Line>) -> Result<(), NoMemory>
        requires hart { hart_of line.what < MAX_HARTS }
        requires few { slice_index self.old.records (hart_of line.what) + 1 < 2 ^ 32 }
        ensures harts { self.new.harts ≡ self.old.harts }
        ensures lines { OnOk result (lines.new.items ≡ lines.old.items ++ line ∷ []) }
        ensures counts { OnOk result ((g : List Line) → Counts self.old.records g →
            Counts self.new.records (g ++ line ∷ [])) }
        ensures others { (h : ℕ) → (h ≡ hart_of line.what → ⊥) →
            slice_index self.new.records h ≡ slice_index self.old.records h }
    {
        lines.push(line)?;
        self.records[record_hart(&line.what) as usize] += 1;
        Ok(())
    }

    // Tells hart u of an alert event to come, unless it is of that hart.
    #[tactic(auto, using(crate::proofs::Telling::to_own, crate::proofs::Telling::to_other, crate::proofs::Counting::still))]
    fn tell_hart(&mut self, u: u8, of: Point, lines: &mut Vec<Line>) -> Result<(), NoMemory>
        requires hart { u < MAX_HARTS }
        requires few { slice_index self.old.records u + 1 < 2 ^ 32 }
        ensures harts { self.new.harts ≡ self.old.harts }
        ensures lines { OnOk result (lines.new.items ≡ lines.old.items ++ notice_to u of.hart of.number) }
        ensures counts { OnOk result ((g : List Line) → Counts self.old.records g →
            Counts self.new.records (g ++ notice_to u of.hart of.number)) }
        ensures others { (h : ℕ) → (h ≡ u → ⊥) →
            slice_index self.new.records h ≡ slice_index self.old.records h }
        ensures own { slice_index self.new.records of.hart ≡ slice_index self.old.records of.hart }
    {
        if u == of.hart {
            return Ok(());
        }
        let notice = Line {
            what: Record::Notice { hart: u, of },
            arcs: Arcs::none(),
        };
        self.add(notice, lines)
    }

    // Tells all other harts below a bound of an alert event to come.
    fn tell(&mut self, below: u8, of: Point, lines: &mut Vec<Line>) -> Result<(), NoMemory>
        requires below { below ≤ MAX_HARTS }
        requires few { (h : ℕ) → h < MAX_HARTS → slice_index self.old.records h + 1 < 2 ^ 32 }
        ensures harts { self.new.harts ≡ self.old.harts }
        ensures lines { OnOk result (lines.new.items ≡ lines.old.items ++ notices_below of.hart of.number below) }
        ensures counts { OnOk result ((g : List Line) → Counts self.old.records g →
            Counts self.new.records (g ++ notices_below of.hart of.number below)) }
        ensures own { slice_index self.new.records of.hart ≡ slice_index self.old.records of.hart }
    {
        for u in 0..below {
            self.tell_hart(u, of, lines)?;
        }
        Ok(())
    }

    // Below which hart all are told of an event.
    fn told_below(&self, kind: &Kind) -> u8
        ensures { result ≡ told_below self.now.harts kind.now }
    {
        if is_alert(kind) { self.harts } else { 0 }
    }

    // The lines of an event.
    fn add_event(&mut self, event: &Event, lines: &mut Vec<Line>) -> Result<(), NoMemory>
        requires hart { event.now.hart < MAX_HARTS }
        requires harts { self.old.harts ≤ MAX_HARTS }
        requires few { (h : ℕ) → h < MAX_HARTS → slice_index self.old.records h + 1 < 2 ^ 32 }
        ensures harts { self.new.harts ≡ self.old.harts }
        ensures lines { OnOk result (lines.new.items ≡ lines.old.items
            ++ lines_of self.old.harts (slice_index self.old.records event.now.hart + 1) event.now) }
        ensures counts { OnOk result ((g : List Line) → Counts self.old.records g → Counts self.new.records
            (g ++ lines_of self.old.harts (slice_index self.old.records event.now.hart + 1) event.now)) }
    {
        let of = Point {
            hart: event.hart,
            number: self.records[event.hart as usize] + 1,
        };
        let below = self.told_below(&event.kind);
        self.tell(below, of, lines)?;
        let line = Line {
            what: Record::Event(*event),
            arcs: Arcs::none(),
        };
        self.add(line, lines)
    }

    /// Adds the lines of the next event after those that are there: its own line without arcs, and before it, if it is
    /// an alert event, a notice in each other hart by rising hart. The event is of a hart of the run, and fewer than
    /// 2,000,000 were placed. Without memory the placer stays as it was; some of the lines may have been added.
    pub fn place_into(&mut self, event: &Event, lines: &mut Vec<Line>) -> Result<(), NoMemory>
        requires { (events : List Event) × MayPlace self.old events event.now }
        ensures ok { (events : List Event) → MayPlace self.old events event.now → IfOk result (λ _.
            (lines.new.items ≡ lines.old.items
            ++ lines_of self.old.harts (next_number self.old.harts events event.now.hart) event.now)
            × HasPlaced self.new (events ++ event.now ∷ [])) }
        ensures harts { self.new.harts ≡ self.old.harts }
        ensures err { OnErr result (self.new ≡ self.old) }
    {
        let before = self.records;
        let result = self.add_event(event, lines);
        if result.is_err() {
            self.records = before;
        }
        result
    }

    /// The one line of the next event, which is no alert event. No memory is taken.
    #[inline(always)]
    pub fn place_alone(&mut self, event: &Event) -> Line
        requires place { (events : List Event) × MayPlace self.old events event.now }
        requires alone { is_alert_kind event.now.kind ≡ false }
        ensures line { (events : List Event) → MayPlace self.old events event.now →
            lines_of self.old.harts (next_number self.old.harts events event.now.hart) event.now ≡ result ∷ [] }
        ensures placed { (events : List Event) → MayPlace self.old events event.now →
            HasPlaced self.new (events ++ event.now ∷ []) }
        ensures harts { self.new.harts ≡ self.old.harts }
    {
        self.records[event.hart as usize] += 1;
        Line {
            what: Record::Event(*event),
            arcs: Arcs::none(),
        }
    }

    /// The lines of the next event, as `place_into` adds them. Without memory the placer stays as it was.
    pub fn place(&mut self, alloc: Global, event: &Event) -> Result<Vec<Line>, NoMemory>
        requires { (events : List Event) × MayPlace self.old events event.now }
        ensures ok { (events : List Event) → MayPlace self.old events event.now → IfOk result (λ lines.
            (lines.items ≡ lines_of self.old.harts (next_number self.old.harts events event.now.hart) event.now)
            × HasPlaced self.new (events ++ event.now ∷ [])) }
        ensures harts { self.new.harts ≡ self.old.harts }
        ensures err { OnErr result (self.new ≡ self.old) }
    {
        let mut lines = Vec::new(alloc);
        self.place_into(event, &mut lines)?;
        Ok(lines)
    }
}
