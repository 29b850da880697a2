// Single lines of a script.
ghost use Rattle.std.specs.Prelude.{◌≡◌};
ghost use Rattle.openings.specs.Coefficients.{entry_view};
ghost use Rattle.script.specs.Rules.{on_ok, number_of_word, commitment_of_word, flag_of, small_of, field_named, id_view, id_rule, field_rule, clear_rule, entry_rule};
ghost use Rattle.script.specs.Values.{bytes_of};

use crate::numbers::read_number;
use crate::statement::{FieldName, What};
use crate::values::read_commitment;
use crate::words::Words;
use elements::commitment::Commitment;
use openings::clear::{Clear, ClearEntry, MatrixId};
use std::alloc::Global;

fn number_word(word: &[u8]) -> Result<usize, What>
    ensures { result ≡ number_of_word word.now }
{
    // `as`, since a `usize` holds every `u64` here: `try_from` would add a refusal that never comes
    read_number(word).map(|n| n as usize).ok_or(What::Number)
}

fn flag_word(word: &[u8]) -> Result<bool, What>
    ensures { result ≡ flag_of word.now }
{
    match read_number(word) {
        Some(0) => Ok(false),
        Some(1) => Ok(true),
        _ => Err(What::Flag),
    }
}

// A number below 2^32.
pub(crate) fn small_number(word: &[u8]) -> Option<u32>
    ensures { result ≡ small_of word.now }
{
    u32::try_from(read_number(word)?).ok()
}

fn commitment_word(word: &[u8]) -> Result<Commitment, What>
    ensures { on_ok bytes_of result ≡ commitment_of_word word.now }
{
    read_commitment(word).ok_or(What::Commitment)
}

fn field_name(word: &[u8]) -> Result<FieldName, What>
    ensures { result ≡ field_named word.now }
{
    match word {
        b"f257" => Ok(FieldName::F257),
        _ => Err(What::FieldName),
    }
}

pub(crate) fn read_field(words: &Words) -> Result<FieldName, What>
    ensures { result ≡ field_rule words.now }
{
    if !words.begins_with("field") {
        return Err(What::FieldFirst);
    }
    let [_, name] = words.as_slice() else {
        return Err(What::WordCount);
    };
    field_name(name)
}

pub(crate) fn read_clear(heap: Global, words: &Words) -> Result<Clear, What>
    ensures { result ≡ clear_rule words.now }
{
    let [_, zk, smallest, largest] = words.as_slice() else {
        return Err(What::WordCount);
    };
    let zk = flag_word(zk)?;
    let smallest = number_word(smallest)?;
    let largest = number_word(largest)?;
    Ok(Clear::new(heap, zk, smallest, largest))
}

// The matrix that three words name.
#[tactic(auto, unfolding(crate::specs::Rules::id_rule))]
pub(crate) fn matrix_id(commitment: &[u8], matrix: &[u8], bits: &[u8]) -> Result<MatrixId, What>
    ensures { on_ok id_view result ≡ id_rule commitment.now matrix.now bits.now }
{
    Ok(MatrixId {
        commitment: commitment_word(commitment)?,
        matrix: number_word(matrix)?,
        bits: number_word(bits)?,
    })
}

pub(crate) fn read_entry(words: &Words) -> Result<ClearEntry, What>
    ensures { on_ok entry_view result ≡ entry_rule words.now }
{
    let [_, commitment, matrix, bits, start, columns] = words.as_slice() else {
        return Err(What::WordCount);
    };
    let id = matrix_id(commitment, matrix, bits)?;
    let start = number_word(start)?;
    let columns = number_word(columns)?;
    Ok(ClearEntry { id, start, columns })
}
