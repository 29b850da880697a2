// What follows from the laws of a field kind, for every kind at once.
ghost use Rattle.elements.specs.Facts.{EmbeddedUnits, DividesPowers, DivisorInvertible, InversePresent, InverseUnique};
ghost use Rattle.elements.specs.Facts.{MinusOne, TwoInvertible, RootPower, RootsApart};

use crate::field::Field;

// Theorems with no work to do: the contract is what is proved.
pub fn consequences<E: Field>()
    ensures units { EmbeddedUnits E.kind }
    ensures powers { DividesPowers E.kind }
    ensures divisor { DivisorInvertible E.kind }
    ensures present { InversePresent E.kind }
    ensures unique { InverseUnique E.kind }
    ensures minus { MinusOne E.kind }
    ensures two { TwoInvertible E.kind }
    ensures order { RootPower E.kind }
    ensures apart { RootsApart E.kind }
{}
