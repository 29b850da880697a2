// Adding to a text in one piece.
ghost use Rattle.std.specs.Prelude.{◌≡◌, ◌++◌, string_bytes, OnOk, OnErr, IfSome};

use std::alloc::{AllocError, Global};
use std::fmt;

// Adds what a value shows. Not by `write!` into the text: where memory runs out, a part would stay.
pub(crate) fn add<T: fmt::Display>(
    heap: Global,
    out: &mut String,
    shown: &T,
) -> Result<(), AllocError>
    ensures added { OnOk result (IfSome (T.Display.output shown.now) (λ text. string_bytes out.new ≡ string_bytes out.old ++ text)) }
    ensures kept { OnErr result (string_bytes out.new ≡ string_bytes out.old) }
{
    let text = shown.to_string(heap)?;
    out.push_str(text.as_str())?;
    Ok(())
}
