// Powers, sums, products and folds over any kind.
ghost use Rattle.std.specs.Prelude.{◌≡◌, map};
ghost use Rattle.std.specs.Iterator.{IsFinite};
ghost use Rattle.std.specs.Iterator.Runs.{WholeRun};
ghost use Rattle.elements.specs.Kind.{pow, total, evaluated};
ghost use Rattle.elements.specs.Sums.{product, fold, recomposed};

use crate::field::Field;

// x to the power n, by repeated squaring: the exponent is halved and not counted, so no iterator is plainer than this loop.
pub fn exp_u64<E: Field>(x: E, n: u64) -> E
    ensures { result ≡ pow E.kind x n }
{
    let mut power = E::one();
    let mut base = x;
    let mut left = n;
    while left > 0 {
        if left % 2 == 1 {
            power = power.mul(base);
        }
        base = base.mul(base);
        left /= 2;
    }
    power
}

// acc·alpha + c over the values as they come, from a first acc.
fn fold_from<E: Field, I: Iterator<Item = E>>(first: E, alpha: E, values: I) -> E
    requires can { I.can_next values }
    requires ends { IsFinite (I.remaining values) }
    ensures { WholeRun I.next_gives values (λ run. result ≡ fold E.kind alpha first run.items) }
{
    values.fold(first, |acc, c| acc.mul(alpha).add(c))
}

// The same from 0.
fn fold_in<E: Field, I: Iterator<Item = E>>(alpha: E, values: I) -> E
    requires can { I.can_next values }
    requires ends { IsFinite (I.remaining values) }
    ensures { WholeRun I.next_gives values (λ run. result ≡ fold E.kind alpha E.kind.zero run.items) }
{
    fold_from(E::zero(), alpha, values)
}

// acc·alpha + c over the values, first to last, from 0.
pub fn folded<E: Field>(alpha: E, values: &[E]) -> E
    ensures { result ≡ fold E.kind alpha E.kind.zero values.now }
{
    fold_in(alpha, values.iter().copied())
}

// The polynomial with these coefficients, lowest first, at a point.
pub fn horner<E: Field>(coefficients: &[E], point: E) -> E
    ensures { result ≡ evaluated E.kind point coefficients.now }
{
    fold_in(point, coefficients.iter().rev().copied())
}

// The same of coefficients that are numbers, read modulo p.
pub fn horner_u32<E: Field>(coefficients: &[u32], point: E) -> E
    ensures { result ≡ evaluated E.kind point (map E.kind.embed coefficients.now) }
{
    // From the highest on, and not from 0: a column of one number then takes no product.
    let Some((highest, rest)) = coefficients.split_last() else {
        return E::zero();
    };
    let first = E::from_u32(*highest);
    fold_from(first, point, rest.iter().rev().map(|c| E::from_u32(*c)))
}

// Values of the coordinates put together: the sum of x^i·v_i.
pub fn recompose<E: Field>(values: &[E]) -> E
    ensures { result ≡ recomposed E.kind values.now }
{
    horner(values, E::basis())
}

pub fn sum<E: Field>(values: &[E]) -> E
    ensures { result ≡ total E.kind values.now }
{
    values.iter().fold(E::zero(), |acc, v| acc.add(*v))
}

pub fn product_of<E: Field>(values: &[E]) -> E
    ensures { result ≡ product E.kind values.now }
{
    values.iter().fold(E::one(), |acc, v| acc.mul(*v))
}
