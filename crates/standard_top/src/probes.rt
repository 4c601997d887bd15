//! The standard probes, in the order in which they are handed in.
ghost use Rattle.std.specs.Prelude.{◌≡◌, ◌++◌, ◌∷◌, [], All, IfOk, OnOk, map};
ghost use Rattle.standard_probes.specs.Probes.{kinds_meaning, harts_meaning, bytes_meaning, alert_meaning};
ghost use Rattle.standard_top.specs.Standard.{standard_meanings};

use pl_base::NoMemory;
use replay_probes::Probe;
use std::alloc::Global;

/// The four probes, none of which has seen an event, in one list.
pub(crate) fn in_order(
    alloc: Global,
    kinds: Box<dyn Probe>,
    harts: Box<dyn Probe>,
    bytes: Box<dyn Probe>,
    alert: Box<dyn Probe>,
) -> Result<Vec<Box<dyn Probe>>, NoMemory>
    requires kinds { meaning kinds ≡ kinds_meaning }
    requires harts { meaning harts ≡ harts_meaning }
    requires bytes { meaning bytes ≡ bytes_meaning }
    requires alert { meaning alert ≡ alert_meaning }
    requires fresh_kinds { has_seen kinds [] }
    requires fresh_harts { has_seen harts [] }
    requires fresh_bytes { has_seen bytes [] }
    requires fresh_alert { has_seen alert [] }
    ensures meanings { IfOk result (λ probes. map (λ p. meaning p) probes.items ≡ standard_meanings) }
    ensures fresh { IfOk result (λ probes. All (λ p. has_seen p []) probes.items) }
{
    let mut probes = Vec::new(alloc);
    hand_in(&mut probes, kinds)?;
    hand_in(&mut probes, harts)?;
    hand_in(&mut probes, bytes)?;
    hand_in(&mut probes, alert)?;
    Ok(probes)
}

/// One more probe that has seen no event.
fn hand_in(probes: &mut Vec<Box<dyn Probe>>, probe: Box<dyn Probe>) -> Result<(), NoMemory>
    requires all { All (λ p. has_seen p []) probes.old.items }
    requires fresh { has_seen probe [] }
    ensures all { All (λ p. has_seen p []) probes.new.items }
    ensures meanings { OnOk result (map (λ p. meaning p) probes.new.items
        ≡ map (λ p. meaning p) probes.old.items ++ meaning probe ∷ []) }
{
    probes.push(probe)?;
    Ok(())
}
