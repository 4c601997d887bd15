//! Places in the stream of a hart.
ghost use Rattle.std.specs.Prelude.{◌≡◌, ◌+◌, ◌<◌, ◌↔◌, IsTrue, IsSome};
ghost use Rattle.order_core.specs.inner.Places.{place_of};

/// The place of an operation in its hart's stream: operation `op`, from 0, of record `number`, from 1.
#[derive(Clone, Copy, Debug)]
pub(crate) struct Place {
    pub(crate) number: u32,
    pub(crate) op: u32,
}

impl Place {
    /// Whether it is before the other.
    pub(crate) fn is_earlier(self, other: Place) -> bool
        ensures { IsTrue result ↔ (place_of self < place_of other) }
    {
        self.number < other.number || (self.number == other.number && self.op < other.op)
    }

    /// Whether they are one place.
    pub(crate) fn is_same(self, other: Place) -> bool
        ensures { IsTrue result ↔ (place_of self ≡ place_of other) }
    {
        self.number == other.number && self.op == other.op
    }
}
