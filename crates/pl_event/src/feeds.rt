//! The lines of a hart as a worker takes them.
ghost use Rattle.std.specs.Prelude.{◌≡◌, ◌^◌, ◌<◌, ◌≤◌, length, IfOk};
ghost use Rattle.pl_event.specs.Edges.{IsFlow};
ghost use Rattle.pl_event.specs.Feeds.{feds_of};

use crate::fed::Fed;
use crate::heads::Heads;
use crate::lines::Lines;
use crate::log::Log;
use crate::streams::record_hart;
use pl_base::NoMemory;
use std::alloc::Global;

/// The records of a hart in order, each as a worker takes it, of a log whose arcs and notices lead forward.
pub fn fed_of(alloc: Global, log: &Log, hart: u8) -> Result<Vec<Fed>, NoMemory>
    requires flow { IsFlow log.now.harts log.now.lines }
    requires harts { log.now.harts ≤ 8 }
    requires few { length log.now.lines < 2 ^ 32 }
    ensures { IfOk result (λ feds. feds.items ≡ feds_of hart log.now.lines) }
{
    feds(alloc, log.harts, &log.lines, hart)
}

fn feds(alloc: Global, harts: u8, lines: &Lines, hart: u8) -> Result<Vec<Fed>, NoMemory>
    requires flow { IsFlow harts lines.now }
    requires harts { harts ≤ 8 }
    requires few { length lines.now < 2 ^ 32 }
    ensures { IfOk result (λ feds. feds.items ≡ feds_of hart lines.now) }
{
    let mut heads = Heads::new();
    let mut feds = Vec::new(alloc);
    for at in 0..lines.len() {
        let line = lines.get(at);
        if record_hart(&line.what) == hart {
            feds.push(heads.fed(&line))?;
        }
        heads.pass(&line);
    }
    Ok(feds)
}
