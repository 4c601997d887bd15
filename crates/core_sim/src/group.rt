//! The events of one step.
use pl_event::Event;
use std::marker::Model;

/// How many events a step has at most.
const MAX_EVENTS: usize = 4;

/// The events of one step, one to four, in order. Those past the count are of no meaning.
#[derive(Drop)]
pub struct EventGroup {
    events: [Event; MAX_EVENTS],
    count: u8,
}

impl Model for EventGroup {
    ghost use Rattle.std.specs.Prelude.{◌≡◌, ◌≤◌, List, length, take};
    ghost use Rattle.pl_event.specs.declared.event.Event.{Event};
    ghost use Rattle.core_sim.specs.declared.group.TheConstants.{MAX_EVENTS};

    ghost Value = { List Event };

    ghost view = { λ group. take group.count group.events };

    ghost invariant = { λ group.
        (length group.events ≡ MAX_EVENTS) × (1 ≤ group.count) × (group.count ≤ MAX_EVENTS) };
}

impl EventGroup {
    ghost use Rattle.std.specs.Prelude.{◌≡◌, ◌≤◌, ◌<◌, [], ◌∷◌, ◌++◌, length, slice_get, Some};
    ghost use Rattle.core_sim.specs.declared.group.TheConstants.{MAX_EVENTS};

    /// One event.
    #[inline]
    pub fn one(event: Event) -> EventGroup
        ensures { result ≡ event ∷ [] }
    {
        EventGroup {
            events: [event; MAX_EVENTS],
            count: 1,
        }
    }

    /// One more event at the end.
    #[inline]
    pub fn push(&mut self, event: Event)
        requires { length self.old < MAX_EVENTS }
        ensures { self.new ≡ self.old ++ event ∷ [] }
    {
        self.events[usize::from(self.count)] = event;
        self.count += 1;
    }

    /// How many events there are: 1 to 4.
    #[allow(clippy::len_without_is_empty)]
    pub fn len(&self) -> u8
        ensures count { result ≡ length self.now }
        ensures some { 1 ≤ result }
        ensures few { result ≤ MAX_EVENTS }
    {
        self.count
    }

    /// The event at a place, from 0.
    pub fn at(&self, i: u8) -> Event
        requires { i < length self.now }
        ensures { slice_get self.now i ≡ Some result }
    {
        self.events[usize::from(i)]
    }
}

/// What a call of `Machine::step` came to.
#[derive(Drop)]
pub enum StepOut {
    /// A step was taken, with these events.
    Did(EventGroup),
    /// No hart is live.
    Halted,
    /// A hart is live, and the job's limit of steps is reached.
    Limit,
}
