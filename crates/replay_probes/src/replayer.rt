//! A run that is played event by event.
ghost use Rattle.std.specs.Prelude.{◌≡◌};
ghost use Rattle.pl_base.specs.declared.layout.TheConstants.{PAGE_COUNT, MAX_HARTS, MAX_RECORDS};
ghost use Rattle.lifeguard.specs.Shadow.{place_of};
ghost use Rattle.replay_probes.specs.Watched.{place_of as place_of_audience};

use crate::audience::Audience;
use crate::probe::Probe;
use lifeguard::{Lifeguard, PlainMonitor};
use pl_base::NoMemory;
use pl_event::{Event, PageRun};
use std::alloc::Global;

/// A run that is played event by event: the plain monitor, and the probes that look on.
#[derive(Drop)]
pub struct Replayer<L: Lifeguard, B> {
    monitor: PlainMonitor<L>,
    audience: Audience<B>,
    /// Memory was missing at some event: nothing more is answered.
    lost: bool,
    ghost level: { place_of_audience audience ≡ place_of monitor.shadow },
}

/// What a run was played to.
#[derive(Drop)]
pub struct Replayed<L: Lifeguard> {
    /// The plain monitor of all events.
    pub monitor: PlainMonitor<L>,
    /// A line for each probe, in their order, without its line feed.
    pub lines: Vec<Vec<u8>>,
}

impl<L: Lifeguard, B: Probe> Replayer<L, B> {
    ghost use Rattle.std.specs.Prelude.{◌≤◌, ◌<◌, ◌+◌, ◌++◌, ◌∷◌, [], List, All, IfOk, OnOk, OnErr, IsTrue, IsErr, false, map};
    ghost use Rattle.pl_event.specs.Valid.{IsValidEvent};
    ghost use Rattle.pl_event.specs.declared.event.Event.{Event};
    ghost use Rattle.pl_event.specs.declared.log.PageRun.{PageRun};
    ghost use Rattle.lifeguard.specs.Rules.{Rules};
    ghost use Rattle.replay_probes.specs.Meaning.{Meaning, line_over};
    ghost use Rattle.replay_probes.specs.Plays.{Plays};

    /// Before the first event of `harts` harts, 1 to 8, with these pages mapped, and probes that have seen no event.
    pub fn new(
        alloc: Global,
        l: L,
        harts: u8,
        pages: &[PageRun],
        probes: Vec<B>,
    ) -> Result<Replayer<L, B>, NoMemory>
        requires few { harts ≤ MAX_HARTS }
        requires inside { All (λ run. run.first + run.count ≤ PAGE_COUNT) pages.now }
        requires fresh { All (λ probe. B.has_seen probe []) probes.items }
        ensures plays { IfOk result (λ replayer. Plays B.meaning B.has_seen (L.rules l) pages.now
            (map B.meaning probes.items) [] replayer.monitor.shadow replayer.audience) }
        ensures ready { IfOk result (λ replayer. replayer.lost ≡ false) }
        ensures guard { IfOk result (λ replayer. replayer.monitor.guard ≡ l) }
        ensures harts { IfOk result (λ replayer. replayer.monitor.harts ≡ harts) }
    {
        let monitor = PlainMonitor::new(alloc, l, harts, pages)?;
        let audience = Audience::new(alloc, probes)?;
        Ok(Replayer {
            monitor,
            audience,
            lost: false,
        })
    }

    /// Plays one event that is valid for the run's number of harts; at most 2,000,000 are played. Out of memory the run
    /// is lost: no later call answers anything else, and the monitor stays as it is.
    #[inline]
    pub fn step(&mut self, alloc: Global, event: &Event) -> Result<(), NoMemory>
        requires valid { IsValidEvent event.now self.old.monitor.harts }
        requires room { place_of self.old.monitor.shadow < MAX_RECORDS }
        ensures plays { OnOk result ((pages : List PageRun) (meanings : List Meaning) (events : List Event)
            → Plays B.meaning B.has_seen (L.rules self.old.monitor.guard) pages meanings events
            self.old.monitor.shadow self.old.audience
            → Plays B.meaning B.has_seen (L.rules self.old.monitor.guard) pages meanings (events ++ event.now ∷ [])
            self.new.monitor.shadow self.new.audience) }
        ensures guard { self.new.monitor.guard ≡ self.old.monitor.guard }
        ensures harts { self.new.monitor.harts ≡ self.old.monitor.harts }
        ensures goes_on { OnOk result (self.new.lost ≡ false) }
        ensures lost { OnErr result (IsTrue self.new.lost) }
        ensures stays_lost { IsTrue self.old.lost → IsErr result }
        ensures monitor { IsTrue self.old.lost → self.new.monitor ≡ self.old.monitor }
    {
        if self.lost {
            return Err(NoMemory);
        }
        self.lost = true;
        self.monitor.apply(event)?;
        self.audience.show(alloc, event)?;
        self.lost = false;
        Ok(())
    }

    /// The plain monitor of the events so far.
    pub fn monitor(&self) -> &PlainMonitor<L>
        ensures { result.now ≡ self.now.monitor }
    {
        &self.monitor
    }

    /// Whether memory was missing at some event.
    pub fn is_lost(&self) -> bool
        ensures { result ≡ self.now.lost }
    {
        self.lost
    }

    /// The monitor, and the lines of the probes.
    pub fn finish(self, alloc: Global) -> Result<Replayed<L>, NoMemory>
        ensures stands { IfOk result (λ replayed. replayed.monitor ≡ self.monitor) }
        ensures lines { IfOk result (λ replayed. (rules : Rules) (pages : List PageRun)
            (meanings : List Meaning) (events : List Event)
            → Plays B.meaning B.has_seen rules pages meanings events self.monitor.shadow self.audience
            → map (λ line. line.items) replayed.lines.items ≡ map (line_over events) meanings) }
        ensures stays_lost { IsTrue self.lost → IsErr result }
    {
        let Replayer {
            monitor,
            audience,
            lost,
        } = self;
        if lost {
            return Err(NoMemory);
        }
        let lines = audience.finish(alloc)?;
        Ok(Replayed { monitor, lines })
    }
}
