//! A probe in a box.
ghost use Rattle.std.specs.Prelude.{◌≡◌, IfOk, map};

use crate::probe::{Probe, See};
use pl_base::NoMemory;
use pl_event::Event;
use std::alloc::Global;

/// A probe in a box, which is a probe.
#[derive(Drop)]
pub struct Boxed {
    pub probe: Box<dyn Probe>,
}

impl Probe for Boxed {
    ghost meaning = { λ b. (Probe-box b.probe).meaning b.probe.value };

    ghost has_seen = { λ b. (Probe-box b.probe).has_seen b.probe.value };

    fn name(&self) -> &str {
        self.probe.name()
    }

    fn see(
        &mut self,
        alloc: Global,
        place: u32,
        number: u32,
        event: &Event,
    ) -> Result<See, NoMemory> {
        self.probe.see(alloc, place, number, event)
    }

    fn finish(&self, alloc: Global) -> Result<Vec<u8>, NoMemory> {
        self.probe.finish(alloc)
    }
}

/// Each probe in a box of its own, in order.
pub fn in_boxes(alloc: Global, probes: Vec<Box<dyn Probe>>) -> Result<Vec<Boxed>, NoMemory>
    ensures { IfOk result (λ boxes. boxes.items ≡ map (λ probe. record { probe = probe }) probes.items) }
{
    let mut boxes = Vec::with_capacity(alloc, probes.len())?;
    for probe in probes {
        boxes.push(Boxed { probe })?;
    }
    Ok(boxes)
}
