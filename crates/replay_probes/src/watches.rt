//! Loops over the probes of a run.
ghost use Rattle.std.specs.Prelude.{◌≡◌, ◌<◌, [], ℕ, IfOk, length, map, slice_index_or};
ghost use Rattle.replay_probes.specs.declared.watch.Watch.{Watch};
ghost use Rattle.replay_probes.specs.declared.watch.Watch.TheVariants.{On};
ghost use Rattle.replay_probes.specs.Watches.{IsShown, IsLineOf};

use crate::probe::{Probe, Shown};
use crate::watch::{Watch, end, show};
use pl_base::NoMemory;
use std::alloc::Global;

/// Each probe still sees.
pub fn begin<B: Probe>(alloc: Global, probes: Vec<B>) -> Result<Vec<Watch<B>>, NoMemory>
    ensures { IfOk result (λ watches. watches.items ≡ map On probes.items) }
{
    let mut watches = Vec::with_capacity(alloc, probes.len())?;
    for probe in probes {
        watches.push(Watch::On(probe))?;
    }
    Ok(watches)
}

/// Shows an event to each probe that still sees.
#[inline]
pub fn show_all<B: Probe>(
    alloc: Global,
    watches: &mut [Watch<B>],
    shown: &Shown,
) -> Result<(), NoMemory>
    ensures { IfOk result (λ _. (k : ℕ) (watch : Watch B) → k < length watches.old
        → IsShown B.meaning B.has_seen shown.now
        (slice_index_or watches.old k watch) (slice_index_or watches.new k watch)) }
{
    for k in 0..watches.len() {
        show(alloc, &mut watches[k], shown)?;
    }
    Ok(())
}

/// The lines of all probes, in their order.
pub fn end_all<B: Probe>(alloc: Global, watches: Vec<Watch<B>>) -> Result<Vec<Vec<u8>>, NoMemory>
    ensures long { IfOk result (λ lines. length lines.items ≡ length watches.items) }
    ensures told { IfOk result (λ lines. (k : ℕ) (watch : Watch B) → k < length watches.items
        → IsLineOf B.meaning B.has_seen (slice_index_or watches.items k watch)
        (slice_index_or (map (λ line. line.items) lines.items) k [])) }
{
    let mut lines = Vec::with_capacity(alloc, watches.len())?;
    for watch in watches {
        lines.push(end(alloc, watch)?)?;
    }
    Ok(lines)
}
