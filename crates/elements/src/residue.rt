// Whole numbers modulo P, which both kinds are made of.
ghost use Rattle.std.specs.Prelude.{◌<◌};

// A whole number below P.
#[derive(Clone, Copy)]
pub struct Residue<const P: u32> {
    pub(crate) value: u32,
    ghost below: { value < P },
}

mod arithmetic;
