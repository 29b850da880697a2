// The words of a line.
ghost use Rattle.std.specs.Prelude.{◌≡◌, ◌==◌, map, drop, length, IfOk};
ghost use Rattle.std.specs.Str.{bytes_eq};
ghost use Rattle.script.specs.Pieces.{seen, words_of};
ghost use Rattle.script.specs.Rules.{word};

use crate::text::{Separator, without_comment};
use std::alloc::{AllocError, Global};
use std::marker::Model;

#[derive(Drop)]
pub(crate) struct Words<'a> {
    words: Vec<&'a [u8]>,
}

// Clauses see a line as the list of its words.
impl<'a> Model for Words<'a> {
    ghost use Rattle.std.specs.Prelude.{ℕ, List, map, vec_items};
    ghost use Rattle.script.specs.Pieces.{seen};

    ghost Value = { List (List ℕ) };

    ghost view = { λ w. map seen (vec_items w.words) };
}

impl<'a> Words<'a> {
    // The words of a line, with no comment.
    pub(crate) fn of(heap: Global, line: &'a [u8]) -> Result<Words<'a>, AllocError>
        ensures { IfOk result (λ w. w ≡ words_of line.now) }
    {
        let words = without_comment(line)
            .split(|byte| Separator::Blank.cuts(*byte))
            .filter(|part| !part.is_empty())
            .collect(heap)?;
        Ok(Words { words })
    }

    pub(crate) fn len(&self) -> usize
        ensures { result ≡ length self.now }
    {
        self.words.len()
    }

    pub(crate) fn is_empty(&self) -> bool
        ensures { result ≡ (length self.now == 0) }
    {
        self.words.is_empty()
    }

    // Whether the first word is this text. Where there is none, an empty word stands for it: no rule takes one. Lines are told apart by this, one
    // text after another: with a match on the first word the proof of `Reader::block_line` does not close, and the others are alike.
    pub(crate) fn begins_with(&self, text: &str) -> bool
        ensures { result ≡ bytes_eq (word self.now 0) text.now }
    {
        let first = self.words.first().copied().unwrap_or_default();
        first == text.as_bytes()
    }

    pub(crate) fn as_slice(&self) -> &[&'a [u8]]
        ensures { map seen result.now ≡ self.now }
    {
        self.words.as_slice()
    }

    // The words but for the first.
    pub(crate) fn after_first(&self) -> &[&'a [u8]]
        ensures { map seen result.now ≡ drop 1 self.now }
    {
        self.words.get(1..).unwrap_or_default()
    }
}
