// What is printed of a script.
ghost use Rattle.std.specs.Prelude.{◌≡◌, map, IfOk, Some, None, vec_items, string_bytes};
ghost use Rattle.std.specs.Option.{option_map};
ghost use Rattle.script.specs.Replies.{what_text_of, error_text_of, answers_text_of, held_text_of, held_in, asked_text_of, replies_of, standing, Answered};
ghost use Rattle.script.specs.Pieces.{lines_of, words_of};
ghost use Rattle.script.specs.Rules.{open_view, statement_view};

use crate::statement::{Answers, OpenLine, ScriptError, Statement, What};
use crate::values::Written;
use crate::whole::read;
use elements::field::Field;
use openings::clear::Clear;
use std::alloc::{AllocError, Global};
use std::error::Error;
use std::fmt;

impl What {
    pub fn text(self) -> &'static str
        ensures { result.now ≡ what_text_of self }
    {
        match self {
            What::FieldFirst => "the script begins with a line `field NAME`",
            What::FieldName => "no such field",
            What::UnknownWord => "no line begins with this word here",
            What::WordCount => "too few or too many words",
            What::Flag => "0 or 1 is wanted",
            What::Number => "a number below 2^64 is wanted",
            What::SmallNumber => "a number below 2^32 is wanted",
            What::Commitment => "up to 64 hexadecimal digits, an even number",
            What::Element => "an element is wanted, its numbers joined by commas",
            What::NoScheme => "no scheme stands before this line",
            What::NoEnd => "the last block has no `end`",
        }
    }
}

impl fmt::Display for What {
    ghost output = { λ w. Some (what_text_of w) };

    fn fmt<W: fmt::Write>(&self, f: &mut fmt::Formatter<W>) -> fmt::Result {
        f.write_str(self.text())
    }
}

impl fmt::Display for ScriptError {
    ghost output = { λ e. Some (error_text_of e) };

    fn fmt<W: fmt::Write>(&self, f: &mut fmt::Formatter<W>) -> fmt::Result {
        write!(f, "script error: line {}: {}", self.line, self.what)
    }
}

impl Error for ScriptError {}

// The line that says it, as a text.
pub fn error_text(heap: Global, error: ScriptError) -> Result<String, AllocError>
    ensures { IfOk result (λ s. string_bytes s ≡ error_text_of error) }
{
    error.to_string(heap)
}

// Each line, and then why the script could not be read on.
impl fmt::Display for Answers {
    ghost output = { λ a. Some (answers_text_of (map string_bytes a.lines.items) a.error) };

    fn fmt<W: fmt::Write>(&self, f: &mut fmt::Formatter<W>) -> fmt::Result {
        for line in self.lines.iter() {
            writeln!(f, "{line}")?;
        }
        if let Some(error) = self.error {
            writeln!(f, "{error}")?;
        }
        Ok(())
    }
}

// What a scheme holds at a place: its values, or that there are none.
#[derive(Drop)]
struct HeldValues<E>(Option<Vec<E>>);

impl<E: Field> fmt::Display for HeldValues<E> {
    ghost output = { λ h. Some (held_text_of E.Field.kind (option_map vec_items h.0)) };

    fn fmt<W: fmt::Write>(&self, f: &mut fmt::Formatter<W>) -> fmt::Result {
        let Some(values) = &self.0 else {
            return f.write_str("open none");
        };
        f.write_str("open")?;
        for value in values.iter() {
            write!(f, " {}", Written(*value))?;
        }
        Ok(())
    }
}

// The values that a scheme holds at a place; without a scheme there are none.
fn held<E: Field>(
    heap: Global,
    scheme: Option<&Clear>,
    asked: &OpenLine<E>,
    point: E,
) -> Result<Option<Vec<E>>, AllocError>
    ensures { IfOk result (λ o. option_map vec_items o ≡ held_in E.Field.kind (standing scheme.entry) (open_view asked.now) point) }
{
    scheme.map_or(Ok(None), |clear| clear.values(heap, &asked.id, point))
}

// The line that answers a question.
fn reply<E: Field>(
    heap: Global,
    scheme: Option<&Clear>,
    asked: &OpenLine<E>,
) -> Result<String, AllocError>
    ensures { IfOk result (λ s. string_bytes s ≡ asked_text_of E.Field.kind (standing scheme.entry) (open_view asked.now) (open_view asked.now).point) }
{
    match asked.point {
        Ok(point) => HeldValues(held(heap, scheme, asked, point)?).to_string(heap),
        Err(fault) => format!(in heap; "open refused {fault}"),
    }
}

// The lines that answer a script's questions, in order, each asked of the scheme that stands.
fn replies<E: Field>(heap: Global, statements: &[Statement<E>]) -> Result<Vec<String>, AllocError>
    ensures { IfOk result (λ v. map string_bytes v.items ≡ replies_of E.Field.kind None (map statement_view statements.now)) }
{
    let mut lines = Vec::new(heap);
    let mut scheme: Option<&Clear> = None;
    for statement in statements {
        match statement {
            Statement::Clear(clear) => scheme = Some(clear),
            Statement::Open(asked) => {
                lines.push(reply(heap, scheme, asked)?)?;
            }
        }
    }
    Ok(lines)
}

// A whole script: the lines to print, and why it could not be read on.
pub fn answer<E: Field>(heap: Global, text: &[u8]) -> Result<Answers, AllocError>
    ensures { IfOk result (λ a. Answered E.Field.kind (map words_of (lines_of text.now)) (map string_bytes a.lines.items) a.error) }
{
    let script = read::<E>(heap, text)?;
    let lines = replies(heap, script.statements.as_slice())?;
    let error = script.error;
    Ok(Answers { lines, error })
}
