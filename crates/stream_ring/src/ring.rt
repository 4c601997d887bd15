//! The calls of a ring.
ghost use Rattle.std.specs.Prelude.{◌≡◌, ◌<◌, [], ◌++◌, IfOk, MatchResult, MatchOption};
ghost use Rattle.crossbeam_queue.specs.Fifo.{Held};
ghost use Rattle.pl_base.specs.declared.layout.TheConstants.{MAX_HARTS, RING_CHUNKS};
ghost use Rattle.stream_ring.specs.Flow.{stream_of, IsNext, SomeGot, SomeSent};
ghost use Rattle.stream_ring.specs.Passes.{offered, taken, IsSendOf, IsTakeOf};

use crate::chunk::Chunk;
use crate::ends::{Queue, Ring, SendPass, TakePass};
use crate::rule::{Ends, Offer, Take};
use crate::run_name::RunName;
use pl_base::NoMemory;
use pl_base::layout::RING_CHUNKS;
use std::alloc::Global;
use std::marker::PhantomData;
use std::sync::Wait;

impl<N: RunName> Ring<N> {
    /// The empty ring of a hart, below 8, and its two passes.
    pub fn new(alloc: Global, hart: u8) -> Result<(Ring<N>, SendPass<N>, TakePass<N>), NoMemory>
        requires { hart < MAX_HARTS }
        ensures hart { IfOk result (λ r. r.0.hart ≡ hart) }
        ensures of { IfOk result (λ r. IsSendOf r.0 r.1 × IsTakeOf r.0 r.2) }
        ensures fresh { IfOk result (λ r. (offered r.1 ≡ []) × (taken r.2 ≡ [])) }
    {
        match hart {
            0 => Ring::ends::<0>(alloc),
            1 => Ring::ends::<1>(alloc),
            2 => Ring::ends::<2>(alloc),
            3 => Ring::ends::<3>(alloc),
            4 => Ring::ends::<4>(alloc),
            5 => Ring::ends::<5>(alloc),
            6 => Ring::ends::<6>(alloc),
            7 => Ring::ends::<7>(alloc),
            _ => unreachable!(),
        }
    }

    // The ring of hart `HART` and its passes.
    fn ends<const HART: u8>(alloc: Global) -> Result<(Ring<N>, SendPass<N>, TakePass<N>), NoMemory>
        ensures hart { IfOk result (λ r. r.0.hart ≡ HART) }
        ensures of { IfOk result (λ r. IsSendOf r.0 r.1 × IsTakeOf r.0 r.2) }
        ensures fresh { IfOk result (λ r. (offered r.1 ≡ []) × (taken r.2 ≡ [])) }
    {
        let (queue, mut pass) = Queue::<N>::ruled(alloc, RING_CHUNKS)?;
        let other = queue.another::<Ends<HART>>(&mut pass);
        let ring = Ring { queue, hart: HART };
        let send = SendPass {
            pass,
            run: PhantomData,
        };
        let take = TakePass {
            pass: other,
            run: PhantomData,
        };
        Ok((ring, send, take))
    }

    /// The hart whose records go through it.
    pub fn hart(&self) -> u8
        ensures { result ≡ self.now.hart }
    {
        self.hart
    }

    /// Puts a chunk at the back: the piece of the hart's stream that follows what the pass has offered.
    ///
    /// # Errors
    ///
    /// The chunk comes back where the ring had 16 chunks at a moment of this call.
    pub fn offer<R: Wait>(&self, rt: &R, pass: &mut SendPass<N>, chunk: Chunk) -> Result<(), Chunk>
        requires of { IsSendOf self.now pass.old }
        requires next { IsNext (stream_of N.log self.now.hart) (offered pass.old) chunk }
        ensures of { IsSendOf self.now pass.new }
        ensures done { MatchResult result
            (λ _. offered pass.new ≡ offered pass.old ++ chunk)
            (λ back. (back ≡ chunk) × (offered pass.new ≡ offered pass.old)
            × Held RING_CHUNKS (SomeGot (offered pass.old))) }
    {
        let _len = chunk.len();
        self.queue.push_as::<Offer, R>(rt, &mut pass.pass, chunk)
    }

    /// Takes the oldest chunk: the next piece of the hart's stream. None where the ring had no chunk at a moment
    /// of this call.
    pub fn take<R: Wait>(&self, rt: &R, pass: &mut TakePass<N>) -> Option<Chunk>
        requires of { IsTakeOf self.now pass.old }
        ensures of { IsTakeOf self.now pass.new }
        ensures done { let stream = stream_of N.log self.now.hart in MatchOption result
            ((taken pass.new ≡ taken pass.old) × Held 0 (SomeSent stream (taken pass.old)))
            (λ piece. (taken pass.new ≡ taken pass.old ++ piece) × IsNext stream (taken pass.old) piece) }
    {
        self.queue.pop_as::<Take<N>, R>(rt, &mut pass.pass)
    }
}
