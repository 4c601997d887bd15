//! The run whose records go through the rings of a call, which the call picks.
use std::marker::{Brand, PhantomData};
use stream_ring::RunName;

/// Names a run by its log. Each call of the driver picks it.
pub(crate) trait Naming {
    ghost use Rattle.pl_event.specs.declared.log.Log.{Log};

    ghost log: { Log };
}

impl Naming for Brand {
    ghost use Rattle.std.specs.Prelude.{[]};

    ghost log = { record { harts = 0; block = 0; pages = []; lines = [] } };
}

/// The name of that run for its rings. It has no values.
pub(crate) struct Named<J> {
    run: PhantomData<J>,
}

impl<J: Naming> RunName for Named<J> {
    ghost log = { J.log };
}
