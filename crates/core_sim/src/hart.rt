//! A hart of a run.
use pl_base::FaultCause;
use rv_exec::HartState;

/// Whether a hart goes on, and else how it has ended.
#[derive(Clone, Copy, Debug, PartialEq, Eq)]
pub enum HartEnd {
    Live,
    /// It called the kernel to exit.
    Exit { code: u32 },
    /// `addr` is the hart's pc for the causes `Pc` and `Illegal`, and else the address of the access.
    Fault { cause: FaultCause, addr: u32 },
}

impl HartEnd {
    ghost use Rattle.std.specs.Prelude.{◌≡◌};
    ghost use Rattle.core_sim.specs.Harts.{is_live};

    #[inline]
    pub(crate) fn is_live(self) -> bool
        ensures { result ≡ is_live self }
    {
        matches!(self, HartEnd::Live)
    }
}

/// A hart of a run.
#[derive(Clone, Copy, Debug, PartialEq, Eq)]
pub struct Standing {
    pub state: HartState,
    pub end: HartEnd,
}
