// Faults as users know them: every fault tells its number, its word and its fields.
ghost use Rattle.std.specs.Prelude.{◌≡◌, Some};
ghost use Rattle.std.specs.Option.{option_map};
ghost use Rattle.std.specs.List.{slice_get};
ghost use Rattle.elements.specs.Faults.{FaultV, field_view, element_fault, fault_text_of};

use crate::fault::{ElementError, FaultField};
use std::error::Error;
use std::fmt;

pub trait Fault {
    ghost fault: { Self → FaultV };

    // A number, since it is printed and looked up under it; code tells faults apart by their enums.
    fn number(&self) -> u16
        ensures { result ≡ (fault self.now).number };

    fn word(&self) -> &'static str
        ensures { result.now ≡ (fault self.now).word };

    // By its place, and no slice of fields: a field is made when it is asked for, and nothing here allocates.
    fn field(&self, i: usize) -> Option<FaultField>
        ensures { option_map field_view result ≡ slice_get (fault self.now).fields i };
}

impl Fault for ElementError {
    ghost fault = { element_fault };

    fn number(&self) -> u16 {
        12
    }

    fn word(&self) -> &'static str {
        "Canonical"
    }

    fn field(&self, _i: usize) -> Option<FaultField> {
        None
    }
}

// The number and the word.
impl fmt::Display for ElementError {
    ghost output = { λ e. Some (fault_text_of (element_fault e)) };

    fn fmt<W: fmt::Write>(&self, f: &mut fmt::Formatter<W>) -> fmt::Result {
        let number = self.number();
        let word = self.word();
        write!(f, "{number} {word}")
    }
}

impl Error for ElementError {}
