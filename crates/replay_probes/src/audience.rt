//! The probes of a run.
ghost use Rattle.std.specs.Prelude.{ℕ, ◌≤◌, slice_index};
ghost use Rattle.pl_base.specs.declared.layout.TheConstants.{MAX_HARTS, MAX_RECORDS};

use crate::probe::{Probe, Shown};
use crate::watch::Watch;
use crate::watches::{begin, end_all, show_all};
use pl_base::NoMemory;
use pl_event::Event;
use std::alloc::Global;

/// The probes of a run, in their order, and how many events they were shown, in all and of each hart.
#[derive(Drop)]
pub struct Audience<B> {
    watches: Vec<Watch<B>>,
    place: u32,
    counts: [u32; 8],
    ghost counted: { (h : ℕ) → slice_index counts h ≤ place },
}

impl<B: Probe> Audience<B> {
    ghost use Rattle.std.specs.Prelude.{◌≡◌, ◌+◌, ◌<◌, ◌++◌, ◌∷◌, [], List, All, IfOk, OnOk, map};
    ghost use Rattle.pl_event.specs.declared.event.Event.{Event};
    ghost use Rattle.replay_probes.specs.Meaning.{Meaning, line_over};
    ghost use Rattle.replay_probes.specs.Watched.{Watched, place_of};

    /// These probes, none of which has seen an event.
    pub fn new(alloc: Global, probes: Vec<B>) -> Result<Audience<B>, NoMemory>
        requires { All (λ probe. B.has_seen probe []) probes.items }
        ensures watched { IfOk result (Watched B.meaning B.has_seen (map B.meaning probes.items) []) }
        ensures place { IfOk result (λ audience. place_of audience ≡ 0) }
    {
        Ok(Audience {
            watches: begin(alloc, probes)?,
            place: 0,
            counts: [0; 8],
        })
    }

    /// Shows the next event, of a hart below 8, to each probe that has not stopped. Out of memory all probes stay in
    /// their places, but only some of them have seen the event: nothing more may be shown.
    #[inline]
    pub fn show(&mut self, alloc: Global, event: &Event) -> Result<(), NoMemory>
        requires hart { event.now.hart < MAX_HARTS }
        requires room { place_of self.old < MAX_RECORDS }
        ensures watched { OnOk result ((meanings : List Meaning) (events : List Event)
            → Watched B.meaning B.has_seen meanings events self.old
            → Watched B.meaning B.has_seen meanings (events ++ event.now ∷ []) self.new) }
        ensures place { place_of self.new ≡ place_of self.old + 1 }
    {
        let hart = event.hart as usize;
        let shown = Shown {
            place: self.place + 1,
            number: self.counts[hart] + 1,
            event: *event,
        };
        self.place = shown.place;
        self.counts[hart] = shown.number;
        show_all(alloc, &mut self.watches, &shown)?;
        Ok(())
    }

    /// The lines, in the order of the probes.
    pub fn finish(self, alloc: Global) -> Result<Vec<Vec<u8>>, NoMemory>
        ensures { IfOk result (λ lines. (meanings : List Meaning) (events : List Event)
            → Watched B.meaning B.has_seen meanings events self
            → map (λ line. line.items) lines.items ≡ map (line_over events) meanings) }
    {
        let Audience {
            watches,
            place: _,
            counts: _,
        } = self;
        let lines = end_all(alloc, watches)?;
        Ok(lines)
    }
}
