//! The rule of a ring, and what a step of a pass makes of its view.
use crate::chunk::Chunk;
use crate::run_name::RunName;
use crate::view::View;
use crossbeam_queue::protocol::{Lesson, Outcome, Protocol, Split};
use std::marker::PhantomData;

/// The rule: the records come in the order of the hart's stream.
pub struct InOrder<N> {
    run: PhantomData<N>,
}

impl<N: RunName> Protocol<Chunk, View> for InOrder<N> {
    ghost use Rattle.stream_ring.specs.Flow.{Flows, opening};

    ghost holds = { Flows N.log };

    ghost first = { opening };
}

// The first pass becomes the one that offers, and the new one takes. What a split makes of a view may depend on types
// alone.
pub(crate) struct Ends<const HART: u8>;

impl<const HART: u8> Split<View> for Ends<HART> {
    ghost use Rattle.std.specs.Prelude.{[]};
    ghost use Rattle.stream_ring.specs.Flow.{sender, taker};

    ghost left = { λ v. sender HART [] };

    ghost right = { λ v. taker HART [] };
}

// A pass offers a chunk.
pub(crate) struct Offer;

impl Outcome<Chunk, View> for Offer {
    ghost use Rattle.std.specs.Prelude.{◌≡◌, ◌++◌};
    ghost use Rattle.stream_ring.specs.Flow.{sender};

    ghost then = { λ v x w. w ≡ sender v.hart (v.sent ++ x) };
}

impl Lesson<Chunk, View> for Offer {
    ghost use Rattle.stream_ring.specs.Flow.{SomeGot};

    ghost fact = { λ v items. SomeGot v.sent items };
}

// A pass takes a chunk.
pub(crate) struct Take<N> {
    run: PhantomData<N>,
}

impl<N: RunName> Outcome<Chunk, View> for Take<N> {
    ghost use Rattle.std.specs.Prelude.{◌≡◌, ◌++◌};
    ghost use Rattle.stream_ring.specs.Flow.{stream_of, IsNext, taker};

    ghost then = { λ v x w. (w ≡ taker v.hart (v.got ++ x)) × IsNext (stream_of N.log v.hart) v.got x };
}

impl<N: RunName> Lesson<Chunk, View> for Take<N> {
    ghost use Rattle.stream_ring.specs.Flow.{stream_of, SomeSent};

    ghost fact = { λ v items. SomeSent (stream_of N.log v.hart) v.got items };
}
