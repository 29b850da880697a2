// A script, line by line.
ghost use Rattle.std.specs.Prelude.{◌≡◌, map, drop};
ghost use Rattle.script.specs.Reading.{LineRead, Stepped, Ending};
ghost use Rattle.script.specs.Rules.{on_ok, open_view, statement_view, open_rule, numbers_rule, with_numbers, begun, block_rule, after_clear, outer_rule, after_outer, rule_of};

use crate::lines::{matrix_id, read_clear, read_entry, read_field, small_number};
use crate::statement::{FieldName, LineError, OpenLine, Script, ScriptError, Statement, What};
use crate::values::read_element;
use crate::words::Words;
use elements::field::Field;
use openings::clear::Clear;
use std::alloc::Global;
use std::marker::Model;

fn read_open<E: Field>(heap: Global, words: &Words) -> Result<OpenLine<E>, LineError>
    ensures { LineRead (open_rule E.Field.kind words.now) open_view result }
{
    let [_, commitment, matrix, bits, point] = words.as_slice() else {
        return Err(LineError::Refused(What::WordCount));
    };
    let id = matrix_id(commitment, matrix, bits)?;
    let point = read_element(heap, point)?.ok_or(What::Element)?;
    Ok(OpenLine { id, point })
}

// The numbers behind the first word of a line.
fn add_numbers(clear: &mut Clear, words: &Words) -> Result<(), LineError>
    ensures { LineRead (on_ok (with_numbers clear.old) (numbers_rule (drop 1 words.now))) (λ _. clear.new) result }
{
    for word in words.after_first() {
        let number = small_number(word).ok_or(What::SmallNumber)?;
        clear.add_number(number)?;
    }
    Ok(())
}

// How far a script is read: its field, whether a scheme stands, the block that is open, and what was said.
#[derive(Drop)]
pub(crate) struct Reader<E> {
    heap: Global,
    field: Option<FieldName>,
    scheme: bool,
    block: Option<Clear>,
    statements: Vec<Statement<E>>,
}

// Clauses see a reader as the state of the rules.
impl<E> Model for Reader<E> {
    ghost use Rattle.std.specs.Prelude.{map, vec_items};
    ghost use Rattle.script.specs.Rules.{StateV, statement_view};

    ghost Value = { StateV E };

    ghost view = { λ r. record {
      field = r.field;
      scheme = r.scheme;
      block = r.block;
      statements = map statement_view (vec_items r.statements);
    } };
}

impl<E: Field> Reader<E> {
    pub(crate) fn new(heap: Global) -> Reader<E>
        ensures { result ≡ begun }
    {
        Reader {
            heap,
            field: None,
            scheme: false,
            block: None,
            statements: Vec::new(heap),
        }
    }

    // One line more. Where no rule takes it, nothing is said, and no line can be taken after it: the open block is gone.
    pub(crate) fn take(&mut self, words: &Words) -> Result<(), LineError>
        ensures { Stepped (rule_of E.Field.kind self.old words.now) self.old self.new result }
    {
        if words.is_empty() {
            return Ok(());
        }
        if self.field.is_none() {
            self.field = Some(read_field(words)?);
            return Ok(());
        }
        match self.block.take() {
            None => self.outer_line(words),
            Some(clear) => self.block_line(clear, words),
        }
    }

    // A line between blocks.
    fn outer_line(&mut self, words: &Words) -> Result<(), LineError>
        requires { self.old.block ≡ None }
        ensures { Stepped
            (on_ok (after_outer E.Field.kind self.old) (outer_rule E.Field.kind self.old.scheme words.now))
            self.old self.new result }
    {
        if words.begins_with("clear") {
            self.block = Some(read_clear(self.heap, words)?);
            return Ok(());
        }
        if !words.begins_with("open") {
            return Err(LineError::Refused(What::UnknownWord));
        }
        if !self.scheme {
            return Err(LineError::Refused(What::NoScheme));
        }
        let open = read_open(self.heap, words)?;
        self.statements.push(Statement::Open(open))?;
        Ok(())
    }

    // A line of a clear block, which was taken out.
    fn block_line(&mut self, mut clear: Clear, words: &Words) -> Result<(), LineError>
        requires { self.old.block ≡ None }
        ensures { Stepped
            (on_ok (after_clear E.Field.kind self.old) (block_rule clear words.now))
            self.old self.new result }
    {
        if words.begins_with("numbers") {
            add_numbers(&mut clear, words)?;
            self.block = Some(clear);
            return Ok(());
        }
        if words.begins_with("entry") {
            clear.add_entry(read_entry(words)?)?;
            self.block = Some(clear);
            return Ok(());
        }
        if !words.begins_with("end") {
            return Err(LineError::Refused(What::UnknownWord));
        }
        if words.len() != 1 {
            return Err(LineError::Refused(What::WordCount));
        }
        self.statements.push(Statement::Clear(clear))?;
        self.scheme = true;
        Ok(())
    }

    // What is wrong with a script that ends here.
    pub(crate) fn unended(&self, line: usize) -> Option<ScriptError>
        ensures { Ending self.now line result }
    {
        let what = match (self.field, &self.block) {
            (None, _) => What::FieldFirst,
            (_, Some(_)) => What::NoEnd,
            _ => return None,
        };
        Some(ScriptError { line, what })
    }

    // What was said, and why no more can be read.
    pub(crate) fn script(self, error: Option<ScriptError>) -> Script<E>
        ensures said { map statement_view result.statements.items ≡ self.statements }
        ensures error { result.error ≡ error }
    {
        let Reader { statements, .. } = self;
        Script { statements, error }
    }
}
