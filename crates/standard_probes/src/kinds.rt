//! Events by kind.
ghost use Rattle.std.specs.Prelude.{◌≡◌, ◌<◌, IfOk, slice_index, slice_index_or, string_bytes, []};
ghost use Rattle.standard_probes.specs.ProbeLines.{kind_number as number_of_kind, kind_words, kinds_text};

use crate::tally::{raise, write_counted};
use pl_base::NoMemory;
use pl_event::{Event, Kind};
use replay_probes::{Probe, See};
use std::alloc::{AllocError, Global};

/// How many events of each kind there are.
#[derive(Drop)]
pub struct KindProbe {
    /// By kind, in the order of the line.
    counts: [u32; 16],
}

impl KindProbe {
    ghost use Rattle.standard_probes.specs.Probes.{Tallies, kind_of_shown};

    /// It has seen no event.
    pub fn new() -> KindProbe
        ensures { Tallies kind_of_shown result.counts [] }
    {
        KindProbe { counts: [0; 16] }
    }
}

impl Probe for KindProbe {
    ghost use Rattle.standard_probes.specs.Probes.{kinds_meaning, Tallies, kind_of_shown};

    ghost meaning = { λ _. kinds_meaning };

    ghost has_seen = { λ probe seen. Tallies kind_of_shown probe.counts seen };

    fn name(&self) -> &str {
        "kinds"
    }

    fn see(
        &mut self,
        _alloc: Global,
        _place: u32,
        _number: u32,
        event: &Event,
    ) -> Result<See, NoMemory> {
        raise(&mut self.counts, kind_number(&event.kind))?;
        Ok(See::Go)
    }

    fn finish(&self, alloc: Global) -> Result<Vec<u8>, NoMemory> {
        let line = kinds_line(alloc, &self.counts)?;
        Ok(line.into_bytes())
    }
}

/// The place of a kind in the line.
#[inline]
fn kind_number(kind: &Kind) -> usize
    ensures value { result ≡ number_of_kind kind.now }
    ensures small { result < 16 }
{
    match kind {
        Kind::Ld { .. } => 0,
        Kind::St { .. } => 1,
        Kind::Op { .. } => 2,
        Kind::Mv { .. } => 3,
        Kind::Im { .. } => 4,
        Kind::Br { .. } => 5,
        Kind::Jr { .. } => 6,
        Kind::Al { .. } => 7,
        Kind::Fr { .. } => 8,
        Kind::Bf { .. } => 9,
        Kind::Mp { .. } => 10,
        Kind::Um { .. } => 11,
        Kind::Rd { .. } => 12,
        Kind::Wr { .. } => 13,
        Kind::Ex => 14,
        Kind::Ft { .. } => 15,
    }
}

/// The word of the kind at a place.
fn kind_word(number: u8) -> &'static str
    requires { number < 16 }
    ensures { result.now ≡ slice_index_or kind_words number [] }
{
    match number {
        0 => "ld",
        1 => "st",
        2 => "op",
        3 => "mv",
        4 => "im",
        5 => "br",
        6 => "jr",
        7 => "al",
        8 => "fr",
        9 => "bf",
        10 => "mp",
        11 => "um",
        12 => "rd",
        13 => "wr",
        14 => "ex",
        _ => "ft",
    }
}

fn kinds_line(alloc: Global, counts: &[u32; 16]) -> Result<String, AllocError>
    ensures { IfOk result (λ line. string_bytes line ≡ kinds_text (slice_index counts.now)) }
{
    let mut out = String::from_str(alloc, "probe kinds")?;
    for number in 0..16u8 {
        write_counted(&mut out, kind_word(number), counts[number as usize])?;
    }
    Ok(out)
}
