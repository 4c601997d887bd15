//! The rings of a run and their ends.
ghost use Rattle.std.specs.Prelude.{◌≡◌, ◌≤◌, IfOk};
ghost use Rattle.pl_base.specs.declared.layout.TheConstants.{MAX_HARTS};
ghost use Rattle.pl_event.specs.Feeds.{feds};
ghost use Rattle.ring_feed.specs.Outlets.{AreOutlets, AreRings, AreSends, AreTakes, CanBeFed, rings_of};

use crate::opened::Opened;
use crate::outlet::Outlet;
use pl_base::NoMemory;
use std::alloc::Global;
use stream_ring::{Ring, RunName, SendPass};

/// A ring for each of so many harts, 8 at most.
pub fn open_rings<N: RunName>(alloc: Global, harts: u8) -> Result<Opened<N>, NoMemory>
    requires { harts ≤ MAX_HARTS }
    ensures rings { IfOk result (λ o. AreRings harts o.rings.items) }
    ensures sends { IfOk result (λ o. AreSends o.rings.items o.sends.items) }
    ensures takes { IfOk result (λ o. AreTakes o.rings.items o.takes.items) }
{
    let mut rings = Vec::new(alloc);
    let mut sends = Vec::new(alloc);
    let mut takes = Vec::new(alloc);
    for hart in 0..harts {
        let (ring, send, take) = Ring::<N>::new(alloc, hart)?;
        rings.push(ring)?;
        sends.push(send)?;
        takes.push(take)?;
    }
    Ok(Opened {
        rings,
        sends,
        takes,
    })
}

/// The outlet of each ring, where nothing is offered yet.
pub fn outlets_of<'a, N: RunName>(
    alloc: Global,
    rings: &'a [Ring<N>],
    sends: Vec<SendPass<N>>,
) -> Result<Vec<Outlet<'a, N>>, NoMemory>
    requires log { CanBeFed N.log }
    requires rings { AreRings N.log.harts rings.now }
    requires sends { AreSends rings.now sends.items }
    ensures outlets { IfOk result (λ os. AreOutlets N.log (feds N.log.lines) os.items) }
    ensures rings { IfOk result (λ os. rings_of os.items ≡ rings.now) }
{
    let mut outlets = Vec::new(alloc);
    for pass in sends {
        let outlet = Outlet::new(alloc, &rings[outlets.len()], pass);
        outlets.push(outlet)?;
    }
    Ok(outlets)
}
