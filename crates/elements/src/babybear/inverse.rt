// Inverses of elements, by the norm: no prime is needed for it, nor that x^4 - 11 has no factor.
ghost use Rattle.std.specs.Prelude.{◌≡◌};
ghost use Rattle.elements.specs.Bear.{of, base, babybear, coordinates};
ghost use Rattle.elements.specs.Kind.{Inverse};
ghost use Rattle.elements.specs.Norm.{even, odd, norm_of, conjugate, evenly};

use crate::babybear::product::product;
use crate::babybear::{BabyBear, BaseNumber};

#[tactic(auto, unfolding(crate::specs::Modulo::residues))]
fn zero() -> BaseNumber
    ensures { result ≡ base.zero }
{
    BaseNumber::reduced(0)
}

fn eleven() -> BaseNumber
    ensures { result ≡ of 11 }
{
    BaseNumber::reduced(11)
}

fn even_part(a: BabyBear) -> BaseNumber
    ensures { result ≡ even base (of 11) (coordinates a) }
{
    let w = eleven();
    let cross = w.mul(a.c1.mul(a.c3));
    let squares = a.c0.mul(a.c0).add(w.mul(a.c2.mul(a.c2)));
    squares.add(cross.add(cross).neg())
}

fn odd_part(a: BabyBear) -> BaseNumber
    ensures { result ≡ odd base (of 11) (coordinates a) }
{
    let cross = a.c0.mul(a.c2);
    let squares = a.c1.mul(a.c1).add(eleven().mul(a.c3.mul(a.c3)));
    cross.add(cross).add(squares.neg())
}

fn norm(even: BaseNumber, odd: BaseNumber) -> BaseNumber
    ensures { result ≡ norm_of base (of 11) even odd }
{
    even.mul(even).add(eleven().mul(odd.mul(odd)).neg())
}

fn conjugated(a: BabyBear) -> BabyBear
    ensures { coordinates result ≡ conjugate base (coordinates a) }
{
    BabyBear {
        c0: a.c0,
        c1: a.c1.neg(),
        c2: a.c2,
        c3: a.c3.neg(),
    }
}

// even + odd·x^2
fn even_element(even: BaseNumber, odd: BaseNumber) -> BabyBear
    ensures { coordinates result ≡ evenly base even odd }
{
    BabyBear {
        c0: even,
        c1: zero(),
        c2: odd,
        c3: zero(),
    }
}

pub(crate) fn inverse(a: BabyBear) -> Option<BabyBear>
    ensures { Inverse babybear a result }
{
    let even = even_part(a);
    let odd = odd_part(a);
    let y = norm(even, odd).try_inverse()?;
    let other = even_element(even.mul(y), odd.mul(y).neg());
    Some(product(conjugated(a), other))
}
