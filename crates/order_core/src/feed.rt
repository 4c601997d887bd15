//! The chunks of one hart.
ghost use Rattle.std.specs.Prelude.{◌≡◌, ◌+◌, ◌<◌, ◌≤◌, ◌^◌, ◌↔◌, IsTrue, slice_index};
ghost use Rattle.order_core.specs.FedCore.{after_offer, after_take, empty_feed, with_record, IsFullChunk, IsFullRing};
ghost use Rattle.order_core.specs.HartFeeds.{feed_of};
ghost use Rattle.order_core.specs.inner.KeptFeeds.{IsKeptFeed};

use pl_base::layout::{CHUNK_RECORDS, RING_CHUNKS};

/// What was handed out to a hart. A chunk is kept as the number of its records.
#[derive(Clone, Copy, Debug)]
pub(crate) struct HartFeed {
    /// The records of its partial chunk.
    pub(crate) partial: u32,
    /// The chunks in its ring, oldest first, in the first `count` places.
    pub(crate) chunks: [u32; RING_CHUNKS],
    pub(crate) count: u32,
    /// The records that it took.
    pub(crate) taken: u32,
}

impl HartFeed {
    // Nothing was handed out.
    pub(crate) fn empty() -> HartFeed
        ensures kept { IsKeptFeed result }
        ensures empty { feed_of result ≡ empty_feed }
    {
        HartFeed {
            partial: 0,
            chunks: [0; RING_CHUNKS],
            count: 0,
            taken: 0,
        }
    }

    // Whether the partial chunk is full.
    pub(crate) fn has_full_chunk(&self) -> bool
        ensures { IsTrue result ↔ IsFullChunk (feed_of self.now) }
    {
        self.partial == CHUNK_RECORDS as u32
    }

    // Whether the ring is full.
    pub(crate) fn has_full_ring(&self) -> bool
        requires { IsKeptFeed self.now }
        ensures { IsTrue result ↔ IsFullRing (feed_of self.now) }
    {
        self.count == RING_CHUNKS as u32
    }

    // With one more record in the partial chunk.
    pub(crate) fn with_record(self) -> HartFeed
        requires kept { IsKeptFeed self }
        requires few { self.partial + 1 < 2 ^ 32 }
        ensures kept { IsKeptFeed result }
        ensures after { feed_of result ≡ with_record (feed_of self) }
    {
        HartFeed {
            partial: self.partial + 1,
            ..self
        }
    }

    // With the partial chunk at the back of the ring.
    pub(crate) fn offered(self) -> HartFeed
        requires kept { IsKeptFeed self }
        requires room { self.count < RING_CHUNKS }
        ensures kept { IsKeptFeed result }
        ensures after { feed_of result ≡ after_offer (feed_of self) }
    {
        let mut chunks = self.chunks;
        chunks[self.count as usize] = self.partial;
        HartFeed {
            partial: 0,
            chunks,
            count: self.count + 1,
            ..self
        }
    }

    // With the oldest chunk taken.
    pub(crate) fn took(self) -> HartFeed
        requires kept { IsKeptFeed self }
        requires some { 1 ≤ self.count }
        requires few { self.taken + slice_index self.chunks 0 < 2 ^ 32 }
        ensures kept { IsKeptFeed result }
        ensures after { feed_of result ≡ after_take (feed_of self) }
    {
        let mut chunks = self.chunks;
        chunks.copy_within(1..RING_CHUNKS, 0);
        HartFeed {
            chunks,
            count: self.count - 1,
            taken: self.taken + self.chunks[0],
            ..self
        }
    }
}
