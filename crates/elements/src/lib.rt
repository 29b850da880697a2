// Field kinds: their elements, what may be done with them, and the laws that hold of it.
#![tactic(auto)]

pub mod babybear;
pub mod commitment;
pub mod f257;
pub mod fault;
pub mod field;
pub mod laws;
pub mod lists;
pub mod place;
pub mod residue;
