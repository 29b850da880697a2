// What a fault is to a user: a number, a word, and fields with their names.
#[derive(Clone, Copy, Debug, PartialEq, Eq)]
pub enum FaultValue {
    // the number of a table
    Table(usize),
    Count(usize),
    Flag(bool),
}

#[derive(Clone, Copy, Debug, PartialEq, Eq)]
pub struct FaultField {
    pub name: &'static str,
    pub value: FaultValue,
}

// What was offered for an element is refused.
#[derive(Clone, Copy, Debug, PartialEq, Eq)]
pub enum ElementError {
    // a coefficient of p or more, or not D of them
    Canonical,
}

pub mod told;
