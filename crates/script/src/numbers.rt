// Numbers as decimal digits.
ghost use Rattle.std.specs.Prelude.{◌≡◌, Some, string_bytes, decimal, OnOk, OnErr};
ghost use Rattle.script.specs.Numerals.{number_of};
ghost use Rattle.script.specs.Values.{Wrote};

use crate::adding::add;
use std::alloc::{AllocError, Global};

// The number that a word writes: digits alone, and below 2^64. Not by `parse`: it takes a plus sign, so each
// byte would be looked at first all the same, and the bytes made a text.
pub fn read_number(word: &[u8]) -> Option<u64>
    ensures { result ≡ number_of word.now }
{
    if word.is_empty() {
        return None;
    }
    let mut number = 0u64;
    for byte in word {
        if !byte.is_ascii_digit() {
            return None;
        }
        number = number
            .checked_mul(10)?
            .checked_add(u64::from(*byte - b'0'))?;
    }
    Some(number)
}

// Adds a number to a text; without memory for it nothing is added.
pub fn write_number(heap: Global, out: &mut String, number: u64) -> Result<(), AllocError>
    ensures wrote { OnOk result (Wrote (string_bytes out.old) (string_bytes out.new) (decimal number) (number_of (decimal number) ≡ Some number)) }
    ensures kept { OnErr result (string_bytes out.new ≡ string_bytes out.old) }
{
    add(heap, out, &number)
}
