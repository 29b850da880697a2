// Elements and commitments as words.
ghost use Rattle.std.specs.Prelude.{◌≡◌, ◌+◌, ◌≤◌, ℕ, List, map, IfOk, IsOk, Some, vec_items, string_bytes, string_len, string_capacity, OnOk, OnErr};
ghost use Rattle.std.specs.Option.{option_map};
ghost use Rattle.std.specs.Result.{result_ok};
ghost use Rattle.script.specs.Hexadecimal.{commitment_of, hex_of};
ghost use Rattle.script.specs.Numerals.{number_of};
ghost use Rattle.script.specs.Pieces.{seen};
ghost use Rattle.script.specs.Values.{Wrote, bytes_of, all_of, coefficients_of, offered_element, element_of, commaed, written_element};

use crate::adding::add;
use crate::hexadecimal::{hex_bytes, write_hex};
use crate::numbers::read_number;
use crate::text::{Separator, split};
use elements::commitment::Commitment;
use elements::fault::ElementError;
use elements::field::Field;
use std::alloc::{AllocError, Global};
use std::convert::AsSlice;
use std::fmt;

pub fn read_commitment(word: &[u8]) -> Option<Commitment>
    ensures { option_map bytes_of result ≡ commitment_of word.now }
{
    let bytes = hex_bytes(word)?;
    Some(Commitment { bytes })
}

// Adds a commitment to a text, in one piece: where the text has room for it that succeeds, and without memory nothing is added.
pub fn write_commitment(out: &mut String, commitment: &Commitment) -> Result<(), AllocError>
    ensures wrote { OnOk result (Wrote (string_bytes out.old) (string_bytes out.new) (hex_of commitment.now.bytes)
        (commitment_of (hex_of commitment.now.bytes) ≡ Some commitment.now.bytes)) }
    ensures kept { OnErr result (string_bytes out.new ≡ string_bytes out.old) }
    ensures room { string_len out.old + 64 ≤ string_capacity out.old → IsOk result }
{
    write_hex(out, &commitment.bytes)
}

// The numbers that parts of a word write, where each of them is one. A `for`, since of a `collect` into an `Option` a proof does not know
// that it is `None` where an item is.
fn read_all(heap: Global, parts: &[&[u8]]) -> Result<Option<Vec<u64>>, AllocError>
    ensures { IfOk result (λ o. option_map vec_items o ≡ all_of number_of (map seen parts.now)) }
{
    let mut numbers = Vec::new(heap);
    for part in parts {
        let Some(number) = read_number(part) else {
            return Ok(None);
        };
        numbers.push(number)?;
    }
    Ok(Some(numbers))
}

// The coefficients that a word writes: D numbers, joined by commas.
fn read_coefficients<E: Field>(heap: Global, word: &[u8]) -> Result<Option<Vec<u64>>, AllocError>
    ensures { IfOk result (λ o. option_map vec_items o ≡ coefficients_of E.Field.kind.dimension word.now) }
{
    let parts = split(heap, word, Separator::Comma)?;
    if parts.len() != E::dimension() {
        return Ok(None);
    }
    read_all(heap, parts.as_slice())
}

// An element as it was offered: `None` where the word is not D numbers.
pub fn read_element<E: Field>(
    heap: Global,
    word: &[u8],
) -> Result<Option<Result<E, ElementError>>, AllocError>
    ensures { IfOk result (λ o. option_map result_ok o ≡ element_of E.Field.kind word.now) }
{
    let numbers = read_coefficients::<E>(heap, word)?;
    Ok(numbers.map(|numbers| offered(numbers.as_slice())))
}

fn offered<E: Field>(coefficients: &[u64]) -> Result<E, ElementError>
    ensures { result_ok result ≡ offered_element E.Field.kind coefficients.now }
{
    E::from_coefficients(coefficients).ok_or(ElementError::Canonical)
}

// Numbers with commas between.
#[derive(Drop)]
struct Commaed<'a>(&'a [u32]);

impl fmt::Display for Commaed<'_> {
    ghost output = { λ c. Some (commaed c.0.now) };

    fn fmt<W: fmt::Write>(&self, f: &mut fmt::Formatter<W>) -> fmt::Result {
        let Some((first, rest)) = self.0.split_first() else {
            return Ok(());
        };
        write!(f, "{first}")?;
        for number in rest {
            write!(f, ",{number}")?;
        }
        Ok(())
    }
}

// An element as its coefficients.
#[derive(Drop)]
pub struct Written<E>(pub E);

impl<E: Field> fmt::Display for Written<E> {
    ghost output = { λ w. Some (written_element E.Field.kind w.0) };

    fn fmt<W: fmt::Write>(&self, f: &mut fmt::Formatter<W>) -> fmt::Result {
        let coefficients = self.0.coefficients();
        write!(f, "{}", Commaed(coefficients.as_slice()))
    }
}

// A theorem with no work to do: what is printed of an element reads back as that element.
pub fn written_reads_back<E: Field>()
    ensures { (e : E) (text : List ℕ) → ⟦<Written<E> as fmt::Display>⟧.output (record { 0 = e }) ≡ Some text → element_of E.Field.kind text ≡ Some (Some e) }
{}

// Adds an element to a text, in one piece; without memory for it nothing is added.
pub fn write_element<E: Field>(heap: Global, out: &mut String, element: E) -> Result<(), AllocError>
    ensures wrote { OnOk result (Wrote (string_bytes out.old) (string_bytes out.new) (written_element E.Field.kind element)
        (element_of E.Field.kind (written_element E.Field.kind element) ≡ Some (Some element))) }
    ensures kept { OnErr result (string_bytes out.new ≡ string_bytes out.old) }
{
    add(heap, out, &Written(element))
}
