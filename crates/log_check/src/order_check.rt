//! The check of a log, line by line.
ghost use Rattle.std.specs.Prelude.{◌≡◌, ℕ, ◌+◌, IfOk, MatchOption};
ghost use Rattle.pl_event.specs.declared.log.Line.{Line};
ghost use Rattle.pl_event.specs.declared.log.Log.{Log};
ghost use Rattle.pl_event.specs.declared.log.Record.TheVariants as entry;
ghost use Rattle.pl_event.specs.Edges.{no_arcs};
ghost use Rattle.pl_event.specs.Runs.{IsBlockSize};
ghost use Rattle.log_check.specs.inner.Partners.{FindsPartner};

use crate::alerts::AlertWatch;
use crate::partner::Later;
use crate::trace::{Trace, outline_of};
use log_clocks::{Clock, Clocks, LastAccesses};
use pl_base::NoMemory;
use pl_event::{Arcs, Event, Heads, Line, Point, Record, record_hart};
use std::alloc::Global;

/// Two events that conflict and are not ordered.
#[derive(Clone, Copy, Debug, PartialEq, Eq)]
pub struct UnorderedPair {
    pub earlier: Point,
    pub later: Point,
}

/// A check of a log whose first lines are taken. It keeps no line, but four bytes of each.
///
/// Each clause speaks of every log whose lines so far these are, so a log can be checked while it is read.
#[derive(Drop)]
pub struct OrderCheck {
    block: u8,
    heads: Heads,
    clocks: Clocks,
    lasts: LastAccesses,
    alerts: AlertWatch,
    trace: Trace,
}

impl OrderCheck {
    ghost use Rattle.log_check.specs.Answers.{NamesFirst};
    ghost use Rattle.log_check.specs.Checked.{IsCheckable, IsChecked, MayPass};
    ghost use Rattle.log_check.specs.inner.Settled.{MaySettle};

    /// No line is taken. A block has 16 or 4 bytes.
    pub fn new(alloc: Global, block: u8) -> Result<OrderCheck, NoMemory>
        requires { IsBlockSize block }
        ensures { IfOk result (λ check. (log : Log) → IsCheckable log → log.block ≡ block → IsChecked check log 0) }
    {
        Ok(OrderCheck {
            block,
            heads: Heads::new(),
            clocks: Clocks::new(alloc)?,
            lasts: LastAccesses::new(alloc, block)?,
            alerts: AlertWatch::new(),
            trace: Trace::new(alloc),
        })
    }

    // The earliest event that conflicts with the next one and is not ordered before it.
    #[inline(always)]
    fn partner(&self, event: &Event, clock: &Clock) -> Option<Point>
        requires { (log : Log) × (at : ℕ) × (line : Line) × MaySettle self.now log at line clock.now
            × (line.what ≡ entry.Event event.now) }
        ensures { (log : Log) (at : ℕ) (line : Line) → MaySettle self.now log at line clock.now →
            line.what ≡ entry.Event event.now → FindsPartner log.block log.lines at result }
    {
        if !self.lasts.are_known(event, clock) || self.alerts.suspects(&self.heads, event) {
            let later = Later {
                size: self.block,
                event: *event,
                clock: *clock,
            };
            later.earliest_partner(&self.trace, &self.heads)
        } else {
            None
        }
    }

    // The same, where the line is an event.
    #[inline(always)]
    fn earlier(&self, line: &Line, clock: &Clock) -> Option<Point>
        requires { (log : Log) × (at : ℕ) × MaySettle self.now log at line.now clock.now }
        ensures { (log : Log) (at : ℕ) → MaySettle self.now log at line.now clock.now →
            FindsPartner log.block log.lines at result }
    {
        match &line.what {
            Record::Event(event) => self.partner(event, clock),
            Record::Notice { hart: _, of: _ } => None,
        }
    }

    // Takes the next line, whose clock is this one and known to the clocks.
    #[inline(always)]
    fn settle(&mut self, line: &Line, clock: &Clock) -> Result<Option<UnorderedPair>, NoMemory>
        requires { (log : Log) × (at : ℕ) × MaySettle self.old log at line.now clock.now }
        ensures { (log : Log) (at : ℕ) → MaySettle self.old log at line.now clock.now →
            IfOk result (λ found. MatchOption found (IsChecked self.new log (at + 1))
            (λ pair. NamesFirst log pair.earlier pair.later)) }
    {
        let hart = record_hart(&line.what);
        let number = clock.get(hart);
        if let Some(earlier) = self.earlier(line, clock) {
            let later = Point { hart, number };
            return Ok(Some(UnorderedPair { earlier, later }));
        }
        self.lasts.pass(line, number)?;
        self.trace.push(outline_of(&self.heads, line))?;
        self.alerts.pass(&self.heads, line);
        self.heads.pass(line);
        Ok(None)
    }

    /// Takes the next line of a log, and names the earliest event that conflicts with it and is not ordered before it;
    /// then they are the first pair that is not ordered. After that, and without memory, nothing is said of the check
    /// any more.
    #[inline(never)]
    pub fn pass(&mut self, line: &Line) -> Result<Option<UnorderedPair>, NoMemory>
        requires { (log : Log) × (at : ℕ) × MayPass self.old log at line.now }
        ensures { (log : Log) (at : ℕ) → MayPass self.old log at line.now →
            IfOk result (λ found. MatchOption found (IsChecked self.new log (at + 1))
            (λ pair. NamesFirst log pair.earlier pair.later)) }
    {
        let hart = record_hart(&line.what);
        let needs = self.heads.needs(line, hart);
        let clock = self.clocks.next(hart, &needs)?;
        self.settle(line, &clock)
    }

    // The same, of a line without arcs on which a notice may bear.
    fn pass_told(&mut self, what: Record) -> Result<Option<UnorderedPair>, NoMemory>
        requires { (log : Log) × (at : ℕ) × MayPass self.old log at (record { what = what; arcs = no_arcs }) }
        ensures { (log : Log) (at : ℕ) → MayPass self.old log at (record { what = what; arcs = no_arcs }) →
            IfOk result (λ found. MatchOption found (IsChecked self.new log (at + 1))
            (λ pair. NamesFirst log pair.earlier pair.later)) }
    {
        let arcs = Arcs::none();
        self.pass(&Line { what, arcs })
    }

    /// The same, of a line without arcs, which is mostly taken without a look at the other harts.
    #[inline(always)]
    pub fn pass_bare(&mut self, what: Record) -> Result<Option<UnorderedPair>, NoMemory>
        requires { (log : Log) × (at : ℕ) × MayPass self.old log at (record { what = what; arcs = no_arcs }) }
        ensures { (log : Log) (at : ℕ) → MayPass self.old log at (record { what = what; arcs = no_arcs }) →
            IfOk result (λ found. MatchOption found (IsChecked self.new log (at + 1))
            (λ pair. NamesFirst log pair.earlier pair.later)) }
    {
        let hart = record_hart(&what);
        if !self.heads.is_unnoticed(hart) {
            return self.pass_told(what);
        }
        let clock = self.clocks.next_alone(hart)?;
        let arcs = Arcs::none();
        let line = Line { what, arcs };
        self.settle(&line, &clock)
    }
}
