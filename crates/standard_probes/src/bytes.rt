//! Bytes loaded and stored.
ghost use Rattle.std.specs.Prelude.{◌≡◌, ◌+◌, IfOk, string_bytes};
ghost use Rattle.standard_probes.specs.ProbeLines.{bytes_text};
ghost use Rattle.standard_probes.specs.Probes.{loaded_by as bytes_loaded, stored_by as bytes_stored};

use pl_base::NoMemory;
use pl_event::{Event, Kind};
use replay_probes::{Probe, See};
use std::alloc::{AllocError, Global};

/// How many bytes are loaded, and how many stored.
#[derive(Drop)]
pub struct ByteProbe {
    loaded: u32,
    stored: u32,
}

impl ByteProbe {
    ghost use Rattle.std.specs.Prelude.{[]};
    ghost use Rattle.standard_probes.specs.Probes.{loaded, stored};

    /// It has seen no event.
    pub fn new() -> ByteProbe
        ensures loads { result.loaded ≡ loaded [] }
        ensures stores { result.stored ≡ stored [] }
    {
        ByteProbe {
            loaded: 0,
            stored: 0,
        }
    }
}

impl Probe for ByteProbe {
    ghost use Rattle.standard_probes.specs.Probes.{bytes_meaning, SumsBytes};

    ghost meaning = { λ _. bytes_meaning };

    ghost has_seen = { λ probe seen. SumsBytes probe.loaded probe.stored seen };

    fn name(&self) -> &str {
        "bytes"
    }

    fn see(
        &mut self,
        _alloc: Global,
        _place: u32,
        _number: u32,
        event: &Event,
    ) -> Result<See, NoMemory> {
        let loads = summed(self.loaded, loaded_by(&event.kind))?;
        let stores = summed(self.stored, stored_by(&event.kind))?;
        self.loaded = loads;
        self.stored = stores;
        Ok(See::Go)
    }

    fn finish(&self, alloc: Global) -> Result<Vec<u8>, NoMemory> {
        let line = bytes_line(alloc, self.loaded, self.stored)?;
        Ok(line.into_bytes())
    }
}

/// The bytes of a load; 0 for any other event.
#[inline]
fn loaded_by(kind: &Kind) -> u8
    ensures { result ≡ bytes_loaded kind.now }
{
    match kind {
        Kind::Ld { width, .. } => width.bytes(),
        _ => 0,
    }
}

/// The bytes of a store; 0 for any other event.
#[inline]
fn stored_by(kind: &Kind) -> u8
    ensures { result ≡ bytes_stored kind.now }
{
    match kind {
        Kind::St { width, .. } => width.bytes(),
        _ => 0,
    }
}

/// The sum; one that is too large has no room.
#[inline]
fn summed(sum: u32, more: u8) -> Result<u32, NoMemory>
    ensures { IfOk result (λ all. all ≡ sum + more) }
{
    match sum.checked_add(u32::from(more)) {
        Some(all) => Ok(all),
        None => Err(NoMemory),
    }
}

fn bytes_line(alloc: Global, loaded: u32, stored: u32) -> Result<String, AllocError>
    ensures { IfOk result (λ line. string_bytes line ≡ bytes_text loaded stored) }
{
    let mut out = String::new(alloc);
    write!(out, "probe bytes ld {loaded} st {stored}")?;
    Ok(out)
}
