//! The run whose records go through a ring.

/// Names a run by its log. It has no values; rings of different runs have different types.
pub trait RunName {
    ghost use Rattle.pl_event.specs.declared.log.Log.{Log};

    /// The log of the run.
    ghost log: { Log };
}
