// What a script says: statements in order, and the line at which it cannot be read on.
use elements::fault::ElementError;
use openings::clear::{Clear, MatrixId};

// The field kinds that a script can name.
#[derive(Clone, Copy, Debug, PartialEq, Eq)]
pub enum FieldName {
    F257,
}

// An `open` line: which values stand at this point? Plain data, which clauses see by `open_view`: a model would hide the fields that they name.
#[derive(Clone, Copy)]
pub struct OpenLine<E> {
    pub id: MatrixId,
    pub point: Result<E, ElementError>,
}

#[derive(Drop)]
pub enum Statement<E> {
    Clear(Clear),
    Open(OpenLine<E>),
}

// Why no rule takes a line.
#[derive(Clone, Copy, Debug, PartialEq, Eq)]
pub enum What {
    FieldFirst,
    FieldName,
    UnknownWord,
    WordCount,
    Flag,
    Number,
    SmallNumber,
    Commitment,
    Element,
    NoScheme,
    NoEnd,
}

#[derive(Clone, Copy, Debug, PartialEq, Eq)]
pub struct ScriptError {
    // counted from 1
    pub line: usize,
    pub what: What,
}

#[derive(Drop)]
pub struct Script<E> {
    pub statements: Vec<Statement<E>>,
    pub error: Option<ScriptError>,
}

// What is printed of a script: a line for each answer, and then why it could not be read on.
#[derive(Drop)]
pub struct Answers {
    pub lines: Vec<String>,
    pub error: Option<ScriptError>,
}

// Why a line was not taken: no rule takes it, or there was no memory for it.
#[derive(Clone, Copy, Debug, PartialEq, Eq)]
pub enum LineError {
    Refused(What),
    Memory,
}
