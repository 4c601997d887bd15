//! The steps of harts and of a feeder.
use crate::steps::CoreStep;

/// What a hart or the feeder does in one step.
#[derive(Clone, Copy, Debug, PartialEq, Eq)]
pub enum FedStep {
    /// A step of the core.
    Core(CoreStep),
    /// The hart takes the oldest chunk of its ring.
    Take { hart: u8 },
    /// The feeder puts the next line of the log into its hart's partial chunk.
    Produce,
    /// The feeder moves a hart's partial chunk to the back of its ring.
    Offer { hart: u8 },
}
