// The element of the kind F257.
use crate::residue::Residue;

pub type F257 = Residue<257>;

pub mod kind;
