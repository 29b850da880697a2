// Places that hold an element.
ghost use Rattle.std.specs.Prelude.{◌≡◌};
ghost use Rattle.elements.specs.Faults.{Placed, refusal, element_fault};

use crate::fault::ElementError;
use crate::field::Field;

// Sets a place from offered coefficients. A place that refuses them keeps what it held.
pub fn set_from_coefficients<E: Field>(place: &mut E, offered: &[u64]) -> Result<(), ElementError>
    ensures { Placed E.kind offered.now place.old place.new (refusal element_fault result) }
{
    *place = E::from_coefficients(offered).ok_or(ElementError::Canonical)?;
    Ok(())
}
