// The element of the kind BabyBear: the coefficients of 1, x, x^2 and x^3.
use crate::residue::Residue;

// p, which is 15·2^27 + 1.
pub(crate) const P: u32 = 2013265921;

pub(crate) type BaseNumber = Residue<P>;

// Clauses see it by its fields or, where they speak of the ring of four coordinates, by `coordinates`; a model would leave them but one of the two.
#[derive(Clone, Copy)]
pub struct BabyBear {
    // four fields and no array: products name them one by one, and would name places instead
    c0: BaseNumber,
    c1: BaseNumber,
    c2: BaseNumber,
    c3: BaseNumber,
}

mod base;
mod inverse;
pub mod kind;
mod product;
