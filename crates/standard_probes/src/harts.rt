//! Events by hart.
ghost use Rattle.std.specs.Prelude.{◌≡◌, ◌++◌, ◌∷◌, IfOk, OnOk, slice_index, string_bytes};
ghost use Rattle.std.specs.Fmt.{decimal};
ghost use Rattle.standard_probes.specs.ProbeLines.{counted, harts_text};

use crate::tally::raise;
use pl_base::NoMemory;
use pl_event::Event;
use replay_probes::{Probe, See};
use std::alloc::{AllocError, Global};

/// How many events each hart has.
#[derive(Drop)]
pub struct HartProbe {
    /// By hart, for all numbers that a hart's byte can be.
    counts: [u32; 256],
}

impl HartProbe {
    ghost use Rattle.std.specs.Prelude.{[]};
    ghost use Rattle.standard_probes.specs.Probes.{Tallies, hart_of_shown};

    /// It has seen no event.
    pub fn new() -> HartProbe
        ensures { Tallies hart_of_shown result.counts [] }
    {
        HartProbe { counts: [0; 256] }
    }
}

impl Probe for HartProbe {
    ghost use Rattle.standard_probes.specs.Probes.{harts_meaning, Tallies, hart_of_shown};

    ghost meaning = { λ _. harts_meaning };

    ghost has_seen = { λ probe seen. Tallies hart_of_shown probe.counts seen };

    fn name(&self) -> &str {
        "harts"
    }

    fn see(
        &mut self,
        _alloc: Global,
        _place: u32,
        _number: u32,
        event: &Event,
    ) -> Result<See, NoMemory> {
        raise(&mut self.counts, event.hart as usize)?;
        Ok(See::Go)
    }

    fn finish(&self, alloc: Global) -> Result<Vec<u8>, NoMemory> {
        let line = harts_line(alloc, &self.counts)?;
        Ok(line.into_bytes())
    }
}

fn harts_line(alloc: Global, counts: &[u32; 256]) -> Result<String, AllocError>
    ensures { IfOk result (λ line. string_bytes line ≡ harts_text (slice_index counts.now)) }
{
    let mut out = String::from_str(alloc, "probe harts")?;
    for hart in 0..256usize {
        write_hart(&mut out, hart, counts[hart])?;
    }
    Ok(out)
}

/// A hart with its count, where that is not 0.
fn write_hart(out: &mut String, hart: usize, count: u32) -> Result<(), AllocError>
    ensures { OnOk result (string_bytes out.new ≡ string_bytes out.old ++ counted (104 ∷ decimal hart) count) }
{
    if count == 0 {
        return Ok(());
    }
    write!(out, " h{hart} {count}")
}
