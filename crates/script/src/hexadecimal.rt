// Commitments as hexadecimal digits.
ghost use Rattle.std.specs.Prelude.{◌≡◌, ◌+◌, ◌≤◌, Some, string_bytes, string_len, string_capacity, IsOk, OnOk, OnErr};
ghost use Rattle.script.specs.Hexadecimal.{commitment_of, hex_of};
ghost use Rattle.script.specs.Values.{Wrote};

use std::alloc::AllocError;

// The bytes of a commitment: 64 hexadecimal digits, or a shorter even number of them and zeros behind.
pub(crate) fn hex_bytes(word: &[u8]) -> Option<[u8; 32]>
    ensures { result ≡ commitment_of word.now }
{
    if word.len() > 64 {
        return None;
    }
    let mut bytes = [0u8; 32];
    hex::decode_to_slice(word, &mut bytes[..word.len() / 2]).ok()?;
    Some(bytes)
}

// Adds the digits of a commitment's bytes to a text, in one piece: where the text has room it succeeds, and without memory to grow nothing is added.
pub(crate) fn write_hex(out: &mut String, bytes: &[u8; 32]) -> Result<(), AllocError>
    ensures wrote { OnOk result (Wrote (string_bytes out.old) (string_bytes out.new) (hex_of bytes.now)
        (commitment_of (hex_of bytes.now) ≡ Some bytes.now)) }
    ensures kept { OnErr result (string_bytes out.new ≡ string_bytes out.old) }
    ensures room { string_len out.old + 64 ≤ string_capacity out.old → IsOk result }
{
    // An array, so that nothing is allocated but what the text grows by. The digits fit, and are text: neither is ever refused.
    let mut digits = [0u8; 64];
    hex::encode_to_slice(&bytes[..], &mut digits).unwrap();
    let text = str::from_utf8(&digits).unwrap();
    out.push_str(text)
}
