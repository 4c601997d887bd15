//! The figures of a run's lines, and its events under the three lifeguards.
ghost use Rattle.std.specs.Prelude.{◌≡◌, ◌≤◌, ◌+◌, ℕ, ◌∷◌, ◌++◌, [], All, List, length, count_by, is_some, IfOk, OnOk};
ghost use Rattle.pl_base.specs.declared.layout.TheConstants.{MAX_HARTS, PAGE_COUNT};
ghost use Rattle.pl_event.specs.declared.event.Event.{Event};
ghost use Rattle.pl_event.specs.declared.log.Line.{Line};
ghost use Rattle.pl_event.specs.declared.log.PageRun.{PageRun};

use addrcheck::AddrCheck;
use lifeguard::PlainMonitor;
use memcheck::MemCheck;
use pl_base::NoMemory;
use pl_event::{Arcs, Event, Line, PageRun, Record};
use std::alloc::Global;
use taintcheck::TaintCheck;

/// How many of the arcs are set.
#[tactic(auto, using(crate::proofs::Tallying::set_arc, crate::proofs::Tallying::no_arc, crate::proofs::Tallying::few_arcs))]
fn count_arcs(arcs: &Arcs) -> u32
    requires { length arcs.now ≡ 8 }
    ensures count { result ≡ count_by is_some arcs.now }
    ensures few { result ≤ 8 }
{
    let mut count = 0;
    for hart in 0..8 {
        if arcs.get(hart).is_some() {
            count += 1;
        }
    }
    count
}

/// How many records and arcs the lines so far have, and the plain monitors of their events.
#[derive(Drop)]
pub struct Tally {
    pub records: u32,
    pub arcs: u32,
    pub addr: PlainMonitor<AddrCheck>,
    pub taint: PlainMonitor<TaintCheck>,
    pub mem: PlainMonitor<MemCheck>,
}

impl Tally {
    ghost use Rattle.run_figures.specs.Tallies.{HasPlayed, HasTallied, MayPlay, MayTally};

    /// Of no line.
    pub fn new(alloc: Global, harts: u8, pages: &[PageRun]) -> Result<Tally, NoMemory>
        requires few { harts ≤ MAX_HARTS }
        requires inside { All (λ run. run.first + run.count ≤ PAGE_COUNT) pages.now }
        ensures { IfOk result (HasTallied harts pages.now []) }
    {
        Ok(Tally {
            records: 0,
            arcs: 0,
            addr: PlainMonitor::new(alloc, AddrCheck, harts, pages)?,
            taint: PlainMonitor::new(alloc, TaintCheck, harts, pages)?,
            mem: PlainMonitor::new(alloc, MemCheck, harts, pages)?,
        })
    }

    /// Plays one more event.
    fn play(&mut self, event: &Event) -> Result<(), NoMemory>
        requires { (harts : ℕ) × (pages : List PageRun) × (events : List Event)
            × MayPlay harts pages events event.now self.old }
        ensures played { OnOk result ((harts : ℕ) (pages : List PageRun) (events : List Event) →
            MayPlay harts pages events event.now self.old → HasPlayed harts pages (events ++ event.now ∷ []) self.new) }
        ensures records { self.new.records ≡ self.old.records }
        ensures arcs { self.new.arcs ≡ self.old.arcs }
    {
        self.addr.apply(event)?;
        self.taint.apply(event)?;
        self.mem.apply(event)
    }

    /// One more line.
    fn add(&mut self, line: &Line) -> Result<(), NoMemory>
        requires { (harts : ℕ) × (pages : List PageRun) × (lines : List Line)
            × MayTally harts pages lines (line.now ∷ []) self.old }
        ensures { OnOk result ((harts : ℕ) (pages : List PageRun) (lines : List Line) →
            MayTally harts pages lines (line.now ∷ []) self.old →
            HasTallied harts pages (lines ++ line.now ∷ []) self.new) }
    {
        self.records += 1;
        self.arcs += count_arcs(&line.arcs);
        match line.what {
            Record::Event(event) => self.play(&event),
            Record::Notice { .. } => Ok(()),
        }
    }

    /// More lines.
    pub fn add_all(&mut self, more: &[Line]) -> Result<(), NoMemory>
        requires { (harts : ℕ) × (pages : List PageRun) × (lines : List Line)
            × MayTally harts pages lines more.now self.old }
        ensures { OnOk result ((harts : ℕ) (pages : List PageRun) (lines : List Line) →
            MayTally harts pages lines more.now self.old → HasTallied harts pages (lines ++ more.now) self.new) }
    {
        for line in more {
            self.add(line)?;
        }
        Ok(())
    }
}
