ghost use Rattle.std.specs.Prelude.{◌≡◌};
ghost use Rattle.replay.specs.declared.faults.CaseError.TheVariants.{NotACase, Memory};

use std::alloc::{AllocError, AllocFailed};
use std::num::ParseIntError;
use thiserror::Error;

// Why a line is not replayed.
#[derive(Clone, Copy, Debug, PartialEq, Eq, Error)]
pub enum CaseError {
    #[error("a line is no case")]
    NotACase,
    #[error("there is no memory")]
    Memory,
}

// The conversions are written by hand: a derived one keeps the error that it converts in the case, and these cases keep nothing.
impl From<AllocError> for CaseError {
    ghost from_gives = { λ _ r. r ≡ Memory };

    fn from(_refused: AllocError) -> CaseError {
        CaseError::Memory
    }
}

impl<T: Drop> From<AllocFailed<T>> for CaseError {
    ghost from_gives = { λ _ r. r ≡ Memory };

    fn from(refused: AllocFailed<T>) -> CaseError {
        AllocError::from(refused).into()
    }
}

impl From<ParseIntError> for CaseError {
    ghost from_gives = { λ _ r. r ≡ NotACase };

    fn from(_refused: ParseIntError) -> CaseError {
        CaseError::NotACase
    }
}
