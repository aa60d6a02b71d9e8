//! Why a part of the tree could not be read.

ghost use Rattle.std.specs.Prelude.{◌≡◌};
ghost use Rattle.tsdl_parse.specs.declared.failure.Failure.TheVariants as failures;

use ctf_list::NoMemory;
use std::alloc::{AllocError, AllocFailed};
use tsdl_text::Token;

/// Why tokens could not be read.
#[derive(Drop)]
pub(crate) enum Failure {
    /// An allocation failed.
    NoMemory,
    /// No tree is spelled. So many tokens were left.
    Syntax(usize),
    /// Braces nest too deep.
    Deep,
}

/// What is read and the tokens after it.
pub(crate) type Read<'t, 'a, T> = Result<(T, &'t [Token<'a>]), Failure>;

impl From<NoMemory> for Failure {
    ghost from_gives = { λ _ failure. failure ≡ failures.NoMemory };

    fn from(_refused: NoMemory) -> Failure {
        Failure::NoMemory
    }
}

impl From<AllocError> for Failure {
    ghost from_gives = { λ _ failure. failure ≡ failures.NoMemory };

    fn from(_refused: AllocError) -> Failure {
        Failure::NoMemory
    }
}

impl<T: Drop> From<AllocFailed<T>> for Failure {
    ghost from_gives = { λ _ failure. failure ≡ failures.NoMemory };

    fn from(_refused: AllocFailed<T>) -> Failure {
        Failure::NoMemory
    }
}
