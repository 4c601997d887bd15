//! One probe of a run.
ghost use Rattle.std.specs.Prelude.{IfOk};
ghost use Rattle.replay_probes.specs.Watches.{IsShown, IsLineOf};

use crate::probe::{Probe, See, Shown};
use pl_base::NoMemory;
use std::alloc::Global;

/// A probe that still sees, or the line of one that stopped.
#[derive(Drop)]
pub enum Watch<B> {
    On(B),
    Off(Vec<u8>),
}

/// Shows an event to a probe that still sees; one that stops is finished and dropped. Out of memory the probe stays
/// where it is: it has seen the event where only its line had no room, and else not.
#[inline]
pub fn show<B: Probe>(alloc: Global, watch: &mut Watch<B>, shown: &Shown) -> Result<(), NoMemory>
    ensures { IfOk result (λ _. IsShown B.meaning B.has_seen shown.now watch.old watch.new) }
{
    match watch {
        Watch::On(probe) => match probe.see(alloc, shown.place, shown.number, &shown.event)? {
            See::Go => Ok(()),
            See::Stop => {
                let line = probe.finish(alloc)?;
                *watch = Watch::Off(line);
                Ok(())
            }
        },
        Watch::Off(_) => Ok(()),
    }
}

/// The line of a probe that sees no more.
pub fn end<B: Probe>(alloc: Global, watch: Watch<B>) -> Result<Vec<u8>, NoMemory>
    ensures { IfOk result (λ line. IsLineOf B.meaning B.has_seen watch line.items) }
{
    match watch {
        Watch::On(probe) => probe.finish(alloc),
        Watch::Off(line) => Ok(line),
    }
}
