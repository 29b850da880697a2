// What a field kind is.
ghost use Rattle.std.specs.Prelude.{◌≡◌};
ghost use Rattle.elements.specs.Kind.{Kind, Laws, less, pow, root_at};
ghost use Rattle.elements.specs.Faults.{Offered};

use crate::lists::exp_u64;
use std::convert::AsSlice;

// A field kind; its values are its elements.
pub trait Field: Copy {
    ghost kind: { Kind Self };

    // D base numbers, lowest first.
    type Coefficients: Copy + Send + Sync + AsSlice<u32> + 'static;

    // p: a base number is a whole number below it.
    fn modulus() -> u32
        ensures { result ≡ kind.modulus };

    // D: an element is this many base numbers.
    fn dimension() -> usize
        ensures { result ≡ kind.dimension };

    // K: there are roots w(0) to w(K).
    fn two_adicity() -> usize
        ensures { result ≡ kind.limit };

    fn zero() -> Self
        ensures { result ≡ kind.zero };

    fn one() -> Self
        ensures { result ≡ kind.one };

    fn add(self, other: Self) -> Self
        ensures { result ≡ kind.plus self other };

    fn sub(self, other: Self) -> Self
        ensures { result ≡ less kind self other };

    fn mul(self, other: Self) -> Self
        ensures { result ≡ kind.times self other };

    fn neg(self) -> Self
        ensures { result ≡ kind.minus self };

    fn try_inverse(self) -> Option<Self>
        ensures { result ≡ kind.inverse self };

    // The element of a base number; a larger number is read modulo p.
    fn from_u32(number: u32) -> Self
        ensures { result ≡ kind.embed number };

    // x: the coefficients of an element belong to 1, x, .., x^(D-1).
    fn basis() -> Self
        ensures { result ≡ kind.x };

    // x^e.
    final fn basis_power(e: u64) -> Self
        ensures { result ≡ pow kind kind.x e }
    {
        exp_u64(Self::basis(), e)
    }

    // The shift g.
    fn generator() -> Self
        ensures { result ≡ kind.embed kind.shift };

    // The root w(bits), where there is one.
    fn two_adic_generator(bits: usize) -> Option<Self>
        ensures { result ≡ root_at kind bits };

    fn coefficients(self) -> Self::Coefficients
        ensures { Self.Coefficients.items result ≡ kind.coefficients self };

    // The element with these coefficients, where there is one.
    fn from_coefficients(offered: &[u64]) -> Option<Self>
        ensures { Offered kind offered.now result };

    ghost lawful: { Laws kind };
}
