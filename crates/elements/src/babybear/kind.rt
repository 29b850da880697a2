// The kind BabyBear.
ghost use Rattle.std.specs.Prelude.{◌≡◌};
ghost use Rattle.elements.specs.Bear.{bear, babybear};
ghost use Rattle.elements.specs.Kind.{pow};
ghost use Rattle.elements.specs.BearLaws.{babybear_laws};

use crate::babybear::inverse::inverse;
use crate::babybear::product::product;
use crate::babybear::{BabyBear, BaseNumber, P};
use crate::field::Field;

// w(27) is 31^15, and each before it the square of the next.
const ROOTS: [u32; 28] = [
    1, 2013265920, 1728404513, 1592366214, 196396260, 760005850, 1721589904, 397765732, 1732600167,
    1753498361, 341742893, 1340477990, 1282623253, 298008106, 1657000625, 2009781145, 1421947380,
    1286330022, 1559589183, 1049899240, 195061667, 414040701, 570250684, 1267047229, 1003846038,
    1149491290, 975630072, 440564289,
];

// The element with these coefficients, each read modulo p.
#[tactic(auto, using(crate::specs::BearLaws::alike))]
fn element(a: u64, b: u64, c: u64, d: u64) -> BabyBear
    ensures { result ≡ bear a b c d }
{
    BabyBear {
        c0: BaseNumber::reduced(a),
        c1: BaseNumber::reduced(b),
        c2: BaseNumber::reduced(c),
        c3: BaseNumber::reduced(d),
    }
}

impl Field for BabyBear {
    ghost kind = { babybear };

    type Coefficients = [u32; 4];

    ghost lawful = { babybear_laws };

    fn modulus() -> u32 {
        P
    }

    fn dimension() -> usize {
        4
    }

    fn two_adicity() -> usize {
        27
    }

    fn zero() -> BabyBear {
        element(0, 0, 0, 0)
    }

    fn one() -> BabyBear {
        element(1, 0, 0, 0)
    }

    // Coordinate by coordinate, as `sub` and `neg`: a helper that takes a closure proves too, but is longer than what it would save.
    fn add(self, other: BabyBear) -> BabyBear {
        BabyBear {
            c0: self.c0.add(other.c0),
            c1: self.c1.add(other.c1),
            c2: self.c2.add(other.c2),
            c3: self.c3.add(other.c3),
        }
    }

    fn sub(self, other: BabyBear) -> BabyBear {
        BabyBear {
            c0: self.c0.sub(other.c0),
            c1: self.c1.sub(other.c1),
            c2: self.c2.sub(other.c2),
            c3: self.c3.sub(other.c3),
        }
    }

    fn mul(self, other: BabyBear) -> BabyBear {
        product(self, other)
    }

    fn neg(self) -> BabyBear {
        BabyBear {
            c0: self.c0.neg(),
            c1: self.c1.neg(),
            c2: self.c2.neg(),
            c3: self.c3.neg(),
        }
    }

    fn try_inverse(self) -> Option<BabyBear> {
        inverse(self)
    }

    fn from_u32(number: u32) -> BabyBear {
        element(u64::from(number), 0, 0, 0)
    }

    fn basis() -> BabyBear {
        element(0, 1, 0, 0)
    }

    fn generator() -> BabyBear {
        element(31, 0, 0, 0)
    }

    fn two_adic_generator(bits: usize) -> Option<BabyBear> {
        let root = ROOTS.get(bits)?;
        Some(element(u64::from(*root), 0, 0, 0))
    }

    fn coefficients(self) -> [u32; 4] {
        [self.c0.value, self.c1.value, self.c2.value, self.c3.value]
    }

    fn from_coefficients(offered: &[u64]) -> Option<BabyBear> {
        match offered {
            [a, b, c, d] if offered.iter().all(|n| *n < u64::from(P)) => {
                Some(element(*a, *b, *c, *d))
            }
            _ => None,
        }
    }
}

// x times x^3 is 11, and so is x^4.
pub fn x_times_x_cubed() -> BabyBear
    ensures fourth { result ≡ pow babybear babybear.x 4 }
    ensures product { result ≡ babybear.times (bear 0 1 0 0) (bear 0 0 0 1) }
    ensures eleven { result ≡ bear 11 0 0 0 }
{
    product(element(0, 1, 0, 0), element(0, 0, 0, 1))
}
