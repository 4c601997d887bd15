//! The top call with the standard probes.
ghost use Rattle.std.specs.Prelude.{◌≡◌, [], All, IfOk, OnErr, map, string_bytes};
ghost use Rattle.paralog_top.specs.Asked.{asks, told};
ghost use Rattle.paralog_top.specs.Commands.{IsNoCommand};
ghost use Rattle.paralog_top.specs.Statuses.{IsComplete, IsGood, Says};
ghost use Rattle.standard_top.specs.Standard.{standard_meanings};

use crate::probes::in_order;
use paralog_top::{Status, plain_top};
use pl_base::{NoMemory, Sink, Source};
use replay_probes::Probe;
use standard_probes::{AlertProbe, ByteProbe, HartProbe, KindProbe};
use std::alloc::Global;

/// Runs the command that the words are, as `plain_top` does, with the probes `kinds`, `harts`, `bytes` and `alert` at
/// hand, in this order.
///
/// # Errors
///
/// `NoMemory` where there was no memory for the probes. Then nothing was read, and nothing was written.
pub fn standard_top<S: Source, K: Sink, E: Sink>(
    alloc: Global,
    words: &[String],
    source: &mut S,
    out: &mut K,
    notes: &mut E,
) -> Result<Status, NoMemory>
    ensures says { IfOk result (λ status. Says (asks standard_meanings (map string_bytes words.now))
        (told (S.left source.old) (S.left source.new) (S.faults source.old) (S.faults source.new))
        (told (K.written out.old) (K.written out.new) (K.faults out.old) (K.faults out.new))
        (told (E.written notes.old) (E.written notes.new) (E.faults notes.old) (E.faults notes.new)) status) }
    ensures usage { IfOk result (λ status. IsNoCommand standard_meanings (map string_bytes words.now)
        → status ≡ Status.Usage) }
    ensures unread { IfOk result (λ status. status ≡ Status.Usage → source.new ≡ source.old) }
    ensures complete { IfOk result (λ status. IsGood (asks standard_meanings (map string_bytes words.now))
        (told (S.left source.old) (S.left source.new) (S.faults source.old) (S.faults source.new))
        (told (K.written out.old) (K.written out.new) (K.faults out.old) (K.faults out.new)) → IsComplete status) }
    ensures source { OnErr result (source.new ≡ source.old) }
    ensures out { OnErr result (out.new ≡ out.old) }
    ensures notes { OnErr result (notes.new ≡ notes.old) }
{
    let kinds = Box::new(alloc, KindProbe::new())?;
    let harts = Box::new(alloc, HartProbe::new())?;
    let bytes = Box::new(alloc, ByteProbe::new())?;
    let alert = Box::new(alloc, AlertProbe::new())?;
    let probes = in_order(alloc, kinds, harts, bytes, alert)?;
    Ok(top_with(alloc, words, source, out, notes, probes))
}

/// The same with probes that are the standard ones.
fn top_with<S: Source, K: Sink, E: Sink>(
    alloc: Global,
    words: &[String],
    source: &mut S,
    out: &mut K,
    notes: &mut E,
    probes: Vec<Box<dyn Probe>>,
) -> Status
    requires fresh { All (λ p. has_seen p []) probes.items }
    requires standard { map (λ p. meaning p) probes.items ≡ standard_meanings }
    ensures says { Says (asks standard_meanings (map string_bytes words.now))
        (told (S.left source.old) (S.left source.new) (S.faults source.old) (S.faults source.new))
        (told (K.written out.old) (K.written out.new) (K.faults out.old) (K.faults out.new))
        (told (E.written notes.old) (E.written notes.new) (E.faults notes.old) (E.faults notes.new)) result }
    ensures usage { IsNoCommand standard_meanings (map string_bytes words.now) → result ≡ Status.Usage }
    ensures unread { result ≡ Status.Usage → source.new ≡ source.old }
    ensures complete { IsGood (asks standard_meanings (map string_bytes words.now))
        (told (S.left source.old) (S.left source.new) (S.faults source.old) (S.faults source.new))
        (told (K.written out.old) (K.written out.new) (K.faults out.old) (K.faults out.new)) → IsComplete result }
{
    plain_top(alloc, words, source, out, notes, probes)
}
