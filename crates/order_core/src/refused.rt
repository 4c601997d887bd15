//! Why a list of steps is not run to its end.
use pl_base::NoMemory;

/// Why a list of steps was not run to its end.
#[derive(Clone, Copy, Debug, PartialEq, Eq)]
pub enum CoreRefused {
    /// Step `at`, counted from 0, is the first that is not allowed.
    NotAble { at: u32 },
    /// No memory was left.
    NoMemory,
}

/// The first step of a list, counted from 0, that is not allowed.
#[derive(Clone, Copy, Debug)]
pub(crate) struct FirstRefused {
    pub(crate) at: u32,
}

impl From<NoMemory> for CoreRefused {
    ghost use Rattle.std.specs.Prelude.{◌≡◌};
    ghost use Rattle.order_core.specs.declared.refused.CoreRefused.TheVariants.{NoMemory};

    ghost from_gives = { λ _ e. e ≡ NoMemory };

    fn from(_refused: NoMemory) -> CoreRefused {
        CoreRefused::NoMemory
    }
}

impl From<FirstRefused> for CoreRefused {
    ghost use Rattle.std.specs.Prelude.{◌≡◌};
    ghost use Rattle.order_core.specs.declared.refused.CoreRefused.TheVariants.{NotAble};

    ghost from_gives = { λ first e. e ≡ NotAble first.at };

    fn from(first: FirstRefused) -> CoreRefused {
        CoreRefused::NotAble { at: first.at }
    }
}
