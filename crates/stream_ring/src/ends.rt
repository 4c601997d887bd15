//! The ring and its two passes.
ghost use Rattle.std.specs.Prelude.{◌≡◌, ◌<◌};
ghost use Rattle.crossbeam_queue.specs.Passes.{view, ruled_capacity};
ghost use Rattle.pl_base.specs.declared.layout.TheConstants.{MAX_HARTS, RING_CHUNKS};
ghost use Rattle.stream_ring.specs.Flow.{sender, taker};

use crate::chunk::Chunk;
use crate::rule::InOrder;
use crate::run_name::RunName;
use crate::view::View;
use crossbeam_queue::{Pass, RuledArrayQueue};
use std::marker::PhantomData;

pub(crate) type Queue<N> = RuledArrayQueue<Chunk, View, InOrder<N>>;

/// The ring of one hart of the run that `N` names.
#[derive(Drop)]
pub struct Ring<N: RunName> {
    pub(crate) queue: Queue<N>,
    pub(crate) hart: u8,
    ghost room: { ruled_capacity queue ≡ RING_CHUNKS },
}

/// The right to offer the pieces of one hart's stream.
#[derive(Drop)]
pub struct SendPass<N> {
    pub(crate) pass: Pass<Chunk, View>,
    pub(crate) run: PhantomData<N>,
    ghost offers: { view pass ≡ sender (view pass).hart (view pass).sent },
}

/// The right to take them.
#[derive(Drop)]
pub struct TakePass<N> {
    pub(crate) pass: Pass<Chunk, View>,
    pub(crate) run: PhantomData<N>,
    ghost takes: { view pass ≡ taker (view pass).hart (view pass).got },
}
