//! How turns end, for a driver.
ghost use Rattle.std.specs.Prelude.{◌≡◌};
ghost use Rattle.lifeguard_crew.specs.inner.Rounds.{both};

/// How a turn or a round of turns ended.
#[derive(Clone, Copy)]
pub(crate) enum RoundEnd {
    /// A worker took all records that it was asked to take.
    Moved,
    /// No worker did, and one waits for another.
    Waited,
    /// All workers have taken all records; where they have rings, all that there were.
    Ended,
}

impl RoundEnd {
    // The end of both.
    pub(crate) fn and(self, other: RoundEnd) -> RoundEnd
        ensures { result ≡ both self other }
    {
        match (self, other) {
            (RoundEnd::Moved, _) | (_, RoundEnd::Moved) => RoundEnd::Moved,
            (RoundEnd::Ended, RoundEnd::Ended) => RoundEnd::Ended,
            _ => RoundEnd::Waited,
        }
    }
}
