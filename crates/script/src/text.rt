// A text cut into parts.
ghost use Rattle.std.specs.Prelude.{◌≡◌, map, IfOk};
ghost use Rattle.script.specs.Pieces.{seen, cuts_at, pieces, uncommented};

use std::alloc::{AllocError, Global};

// What sets the parts of a text apart: an enum and no closure, since the rules of the form name the three.
#[derive(Clone, Copy, Debug, PartialEq, Eq)]
pub enum Separator {
    Newline,
    Blank,
    Comma,
}

impl Separator {
    pub(crate) fn cuts(self, byte: u8) -> bool
        ensures { result ≡ cuts_at self byte }
    {
        match self {
            Separator::Newline => byte == b'\n',
            Separator::Blank => byte == b' ' || byte == b'\t' || byte == b'\r',
            Separator::Comma => byte == b',',
        }
    }
}

// The parts of a text between separators, empty ones too.
pub(crate) fn split<'a>(
    heap: Global,
    text: &'a [u8],
    at: Separator,
) -> Result<Vec<&'a [u8]>, AllocError>
    ensures { IfOk result (λ v. map seen v.items ≡ pieces (cuts_at at) text.now) }
{
    text.split(|byte| at.cuts(*byte)).collect(heap)
}

// A line up to its comment.
pub(crate) fn without_comment(line: &[u8]) -> &[u8]
    ensures { result.now ≡ uncommented line.now }
{
    let end = line.iter().position(|byte| *byte == b'#');
    end.map_or(line, |i| &line[..i])
}
