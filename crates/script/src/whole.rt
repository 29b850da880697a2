// A whole script, from its lines.
ghost use Rattle.std.specs.Prelude.{map, IfOk};
ghost use Rattle.script.specs.Pieces.{line_of, lines_of, words_of};
ghost use Rattle.script.specs.Reading.{ScriptRead};

use crate::reader::Reader;
use crate::statement::{LineError, Script, ScriptError};
use crate::text::{Separator, split};
use crate::words::Words;
use elements::field::Field;
use std::alloc::{AllocError, Global};

// A script from its lines. Where it cannot be read on, what was said before stays.
fn read_lines<E: Field>(heap: Global, lines: &[&[u8]]) -> Result<Script<E>, AllocError>
    ensures { IfOk result (λ s. ScriptRead E.Field.kind (map line_of lines.now) s.statements.items s.error) }
{
    let mut reader = Reader::new(heap);
    for (i, line) in lines.iter().enumerate() {
        let words = Words::of(heap, line)?;
        match reader.take(&words) {
            Ok(()) => {}
            Err(LineError::Refused(what)) => {
                let error = ScriptError { line: i + 1, what };
                return Ok(reader.script(Some(error)));
            }
            Err(LineError::Memory) => return Err(AllocError),
        }
    }
    let error = reader.unended(lines.len());
    Ok(reader.script(error))
}

pub fn read<E: Field>(heap: Global, text: &[u8]) -> Result<Script<E>, AllocError>
    ensures { IfOk result (λ s. ScriptRead E.Field.kind (map words_of (lines_of text.now)) s.statements.items s.error) }
{
    let lines = split(heap, text, Separator::Newline)?;
    read_lines(heap, lines.as_slice())
}
