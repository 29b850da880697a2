// How other faults become those of a line. Written out: a derived `From` does not say which fault it makes, and clauses name it.
ghost use Rattle.std.specs.Prelude.{◌≡◌};
ghost use Rattle.script.specs.declared.statement.LineError.TheVariants.{Refused, Memory};

use crate::statement::{LineError, What};
use std::alloc::{AllocError, AllocFailed};

impl From<What> for LineError {
    ghost from_gives = { λ w r. r ≡ Refused w };

    fn from(what: What) -> LineError {
        LineError::Refused(what)
    }
}

impl From<AllocError> for LineError {
    ghost from_gives = { λ _ r. r ≡ Memory };

    fn from(_e: AllocError) -> LineError {
        LineError::Memory
    }
}

impl<T: Drop> From<AllocFailed<T>> for LineError {
    ghost from_gives = { λ _ r. r ≡ Memory };

    fn from(_e: AllocFailed<T>) -> LineError {
        LineError::Memory
    }
}
