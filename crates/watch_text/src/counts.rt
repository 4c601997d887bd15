//! The counts text of a log whose workers have ended.
ghost use Rattle.std.specs.Prelude.{◌≡◌, ◌++◌, ◌∷◌, IfOk, OnOk, codes, string_bytes};
ghost use Rattle.std.specs.List.{flat_map};
ghost use Rattle.log_watch.specs.Watched.{IsWatched};
ghost use Rattle.watch_text.specs.CountsText.{hart_counts, head_counts, log_counts};

use lifeguard::{Lifeguard, Name};
use log_watch::Watched;
use pl_base::NoMemory;
use pl_event::Log;
use std::alloc::{AllocError, Global};
use turn_worker::HartResult;

/// How many checks the records of each hart of a log have, and how many of them miss in its worker's filter.
pub fn counts_text<L: Lifeguard>(
    alloc: Global,
    guard: L,
    log: &Log,
    watched: &Watched,
) -> Result<Vec<u8>, NoMemory>
    requires { IsWatched (L.rules guard) log.now watched.now }
    ensures { IfOk result (λ text. text.items ≡ log_counts (L.rules guard) log.now) }
{
    let text = counts_of(alloc, guard.name(), log.harts, &watched.results)?;
    Ok(text)
}

fn counts_of(
    alloc: Global,
    name: Name,
    harts: u8,
    results: &[HartResult],
) -> Result<Vec<u8>, AllocError>
    ensures { IfOk result (λ text. text.items ≡ head_counts name harts
        ++ flat_map (λ found. hart_counts found.hart found.checks found.misses) results.now ++ codes "end\n") }
{
    let mut out = String::new(alloc);
    let word = name.word();
    write!(out, "PCNT 1 {word} harts {harts}\n")?;
    write_counts(&mut out, results)?;
    out.push_str("end\n")?;
    Ok(out.into_bytes())
}

fn write_counts(out: &mut String, results: &[HartResult]) -> Result<(), AllocError>
    ensures { OnOk result (string_bytes out.new ≡ string_bytes out.old
        ++ flat_map (λ found. hart_counts found.hart found.checks found.misses) results.now) }
{
    for found in results {
        write_hart(out, found)?;
    }
    Ok(())
}

fn write_hart(out: &mut String, found: &HartResult) -> Result<(), AllocError>
    ensures { OnOk result (string_bytes out.new ≡ string_bytes out.old
        ++ hart_counts found.now.hart found.now.checks found.now.misses) }
{
    let (hart, checks, misses) = (found.hart, found.checks, found.misses);
    write!(out, "h{hart} checks {checks} misses {misses}\n")
}
