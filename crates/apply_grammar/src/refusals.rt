//! Why a text was refused.
ghost use Rattle.std.specs.Prelude.{◌≡◌};

use std::alloc::{AllocError, AllocFailed};
use thiserror::Error;

/// Why a text gave no tree.
#[derive(Debug, Drop, Error)]
pub enum ExprRefused {
    /// It has none within the limits.
    #[error("the text is not of this form")]
    Syntax,
    /// Memory ran out.
    #[error("out of memory")]
    Memory,
}

impl<T: Drop> From<AllocFailed<T>> for ExprRefused {
    ghost use Rattle.apply_grammar.specs.declared.refusals.ExprRefused.TheVariants.{Memory};

    ghost from_gives = { λ _ e. e ≡ Memory };

    fn from(_: AllocFailed<T>) -> ExprRefused {
        ExprRefused::Memory
    }
}

impl From<AllocError> for ExprRefused {
    ghost use Rattle.apply_grammar.specs.declared.refusals.ExprRefused.TheVariants.{Memory};

    ghost from_gives = { λ _ e. e ≡ Memory };

    fn from(_: AllocError) -> ExprRefused {
        ExprRefused::Memory
    }
}

/// Why a line was refused.
#[derive(Debug, Drop, Error)]
pub enum GrammarRefused {
    /// It has more bytes than a line may have.
    #[error("the line is too long")]
    TooLong,
    /// It is no request. The number is 0 where the decoded line is no UTF-8 or has no frame, and else that of the first
    /// transformation, from 1, that is none or that neither a slash nor the end of the line follows.
    #[error("the line is no request from transformation {0} on; 0 stands for the whole line")]
    Syntax(u32),
    /// Memory ran out.
    #[error("out of memory")]
    Memory,
}

impl<T: Drop> From<AllocFailed<T>> for GrammarRefused {
    ghost use Rattle.apply_grammar.specs.declared.refusals.GrammarRefused.TheVariants.{Memory};

    ghost from_gives = { λ _ e. e ≡ Memory };

    fn from(_: AllocFailed<T>) -> GrammarRefused {
        GrammarRefused::Memory
    }
}

impl From<AllocError> for GrammarRefused {
    ghost use Rattle.apply_grammar.specs.declared.refusals.GrammarRefused.TheVariants.{Memory};

    ghost from_gives = { λ _ e. e ≡ Memory };

    fn from(_: AllocError) -> GrammarRefused {
        GrammarRefused::Memory
    }
}
