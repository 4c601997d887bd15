//! A piece of a hart's stream.
ghost use Rattle.std.specs.Prelude.{◌≡◌, length, vec_len};
ghost use Rattle.stream_ring.specs.Flow.{IsChunk};

use pl_event::Fed;
use std::marker::Model;

/// From 1 to 64 records, in order. In contracts it is the list of them.
#[derive(Drop)]
pub struct Chunk {
    list: Vec<Fed>,
}

impl Model for Chunk {
    ghost use Rattle.std.specs.Prelude.{List};
    ghost use Rattle.pl_event.specs.declared.fed.Fed.{Fed};
    ghost use Rattle.stream_ring.specs.Flow.{IsChunk};

    ghost Value = { List Fed };

    ghost view = { λ c. c.list.items };

    ghost invariant = { λ c. IsChunk c.list.items };
}

impl Chunk {
    /// The chunk of 1 to 64 records.
    pub fn of(list: Vec<Fed>) -> Chunk
        requires { IsChunk list.items }
        ensures { result ≡ list.items }
    {
        Chunk { list }
    }

    // How many records it has.
    pub(crate) fn len(&self) -> usize
        ensures len { result ≡ length self.now }
        ensures sized { IsChunk self.now }
    {
        self.list.len()
    }

    /// Its records.
    pub fn into_list(self) -> Vec<Fed>
        ensures list { result.items ≡ self }
        ensures sized { IsChunk result.items }
    {
        self.list
    }
}
