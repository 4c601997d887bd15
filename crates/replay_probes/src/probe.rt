//! What a probe is.
use pl_base::NoMemory;
use pl_event::Event;
use std::alloc::Global;

/// An event as a probe sees it.
#[derive(Clone, Copy, Debug, PartialEq, Eq)]
pub struct Shown {
    /// The event's place in the run, from 1, notices not counted.
    pub place: u32,
    /// The event's number in its hart, from 1, notices not counted.
    pub number: u32,
    pub event: Event,
}

/// Whether a probe wants to see more.
#[derive(Clone, Copy, Debug, PartialEq, Eq)]
pub enum See {
    Go,
    Stop,
}

/// What looks on while a run is played, and ends with one line.
///
/// What a probe makes of the events that it has seen is fixed from the start. It may keep less than these events, as
/// long as that serves its line.
pub trait Probe: Drop {
    ghost use Rattle.std.specs.Prelude.{◌≡◌, ◌++◌, ◌∷◌, [], List, IfOk, OnErr};
    ghost use Rattle.replay_probes.specs.declared.probe.Shown.{Shown};
    ghost use Rattle.replay_probes.specs.Meaning.{Meaning, is_stop};

    /// Its name, its line over the events seen, and where it stops.
    ghost meaning: { Self → Meaning };

    /// Whether it is as it is after these events.
    ghost has_seen: { Self → List Shown → Type 0 };

    /// The name by which it is asked for.
    fn name(&self) -> &str
        ensures { result.now ≡ (meaning self.now).name };

    /// Shows one more event: its place in the run, its number in its hart, each from 1, and the event. Without memory
    /// nothing was seen.
    fn see(
        &mut self,
        alloc: Global,
        place: u32,
        number: u32,
        event: &Event,
    ) -> Result<See, NoMemory>
        ensures meaning { meaning self.new ≡ meaning self.old }
        ensures seen { IfOk result (λ see. (seen : List Shown) → has_seen self.old seen
            → has_seen self.new (seen ++ record { place = place; number = number; event = event.now } ∷ [])) }
        ensures stop { IfOk result (λ see. (seen : List Shown) → has_seen self.old seen
            → is_stop see
            ≡ (meaning self.old).stops (seen ++ record { place = place; number = number; event = event.now } ∷ [])) }
        ensures err { OnErr result ((seen : List Shown) → has_seen self.old seen → has_seen self.new seen) };

    /// Its line, without the line feed.
    fn finish(&self, alloc: Global) -> Result<Vec<u8>, NoMemory>
        ensures { IfOk result (λ line. (seen : List Shown) → has_seen self.now seen
            → line.items ≡ (meaning self.now).line seen) };
}
