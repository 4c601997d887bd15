//! What plays the events of a log: the plain monitor alone, or with probes that look on.
use lifeguard::{Lifeguard, PlainMonitor};
use pl_base::NoMemory;
use pl_event::Event;
use replay_probes::{Probe, Replayer};
use std::alloc::Global;

/// What plays the events of a log, one by one in executed order.
pub trait Player: Drop {
    ghost use Rattle.std.specs.Prelude.{◌≡◌, ℕ, ◌++◌, ◌∷◌, [], List, OnOk};
    ghost use Rattle.pl_event.specs.declared.event.Event.{Event};
    ghost use Rattle.pl_event.specs.declared.log.PageRun.{PageRun};
    ghost use Rattle.pl_event.specs.Valid.{IsValidEvent};
    ghost use Rattle.lifeguard.specs.Rules.{Rules};
    ghost use Rattle.replay_probes.specs.Meaning.{Meaning};
    ghost use Rattle.paralog_top.specs.inner.Playing.{HasRoom, Play};

    /// How many harts the run has.
    ghost harts: { Self → ℕ };

    /// The rules by which it plays.
    ghost rules: { Self → Rules };

    /// Whether it is as after these events of a log with these pages, before probes of these meanings.
    ghost has_played: { Self → List Meaning → Play };

    /// Plays one event.
    fn play(&mut self, alloc: Global, event: &Event) -> Result<(), NoMemory>
        requires valid { IsValidEvent event.now (harts self.old) }
        requires room { HasRoom (has_played self.old) }
        ensures plays { OnOk result ((meanings : List Meaning) (pages : List PageRun) (events : List Event)
            → has_played self.old meanings pages events
            → has_played self.new meanings pages (events ++ event.now ∷ [])) }
        ensures harts { harts self.new ≡ harts self.old }
        ensures rules { rules self.new ≡ rules self.old };
}

impl<L: Lifeguard> Player for PlainMonitor<L> {
    ghost use Rattle.lifeguard.specs.Shadow.{Represents};

    ghost harts = { λ monitor. monitor.harts };

    ghost rules = { λ monitor. L.rules monitor.guard };

    ghost has_played = { λ monitor meanings pages events.
        Represents (L.rules monitor.guard) pages events monitor.shadow };

    #[inline(always)]
    fn play(&mut self, _alloc: Global, event: &Event) -> Result<(), NoMemory> {
        self.apply(event)
    }
}

impl<L: Lifeguard, B: Probe> Player for Replayer<L, B> {
    ghost use Rattle.paralog_top.specs.inner.Playing.{HasWatched};

    ghost harts = { λ replayer. replayer.monitor.harts };

    ghost rules = { λ replayer. L.rules replayer.monitor.guard };

    ghost has_played = { λ replayer. HasWatched B.meaning B.has_seen (L.rules replayer.monitor.guard)
        replayer.monitor.shadow replayer.audience };

    #[inline]
    fn play(&mut self, alloc: Global, event: &Event) -> Result<(), NoMemory> {
        self.step(alloc, event)
    }
}
