//! Why a call over values gives nothing.
use std::alloc::{AllocError, AllocFailed};
use thiserror::Error;

/// Why a call over values or rows gave nothing.
#[derive(Clone, Copy, Debug, PartialEq, Eq, Error)]
pub enum Refused {
    /// A value that is needed is past its range.
    #[error("a number is past its range")]
    Range,
    /// There is not enough memory.
    #[error("there is not enough memory")]
    Memory,
}

impl From<AllocError> for Refused {
    ghost use Rattle.std.specs.Prelude.{◌≡◌};
    ghost use Rattle.edm_values.specs.declared.refusals.Refused.TheVariants.{Memory};

    ghost from_gives = { λ _ e. e ≡ Memory };

    fn from(_: AllocError) -> Refused {
        Refused::Memory
    }
}

impl<T: Drop> From<AllocFailed<T>> for Refused {
    ghost use Rattle.std.specs.Prelude.{◌≡◌};
    ghost use Rattle.edm_values.specs.declared.refusals.Refused.TheVariants.{Memory};

    ghost from_gives = { λ _ e. e ≡ Memory };

    fn from(_: AllocFailed<T>) -> Refused {
        Refused::Memory
    }
}
