ghost use Rattle.std.specs.Prelude.{◌≡◌, ◌<◌, ◌^◌, length};
ghost use Rattle.coda_text.specs.Words.{Split, split_of, rest_of};
ghost use Rattle.coda_text.specs.Steps.{split_next, IsWithin};

use crate::words::{Next, next_word};
use std::marker::Model;

/// What is left of a line, word after word.
///
/// Each word is looked at once. Contracts see the words that are left.
#[derive(Drop)]
pub struct Cursor<'a> {
    line: &'a [u8],
    next: Next,
}

impl<'a> Model for Cursor<'a> {
    ghost Value = { Split };

    ghost view = { λ c. split_next c.line.now c.next };

    ghost invariant = { λ c. IsWithin c.line.now c.next × (length c.line.now < 2 ^ 63) };
}

/// What stands next on a line, and at which byte, from 0.
#[derive(Clone, Copy, Drop)]
pub enum Head<'a> {
    /// The line's end.
    End { at: usize },
    /// The beginning of what is no word.
    Bad { at: usize },
    /// A word, with its bytes as they stand.
    Word { at: usize, text: &'a [u8] },
}

impl<'a> Cursor<'a> {
    ghost use Rattle.coda_text.specs.Heads.{Shows, FitsColumn};

    /// At the front of a line.
    pub fn of(line: &'a [u8]) -> Self
        ensures { result ≡ split_of line.now }
    {
        // Its clause says that the length is below 2^63.
        let _length = line.len();
        Cursor {
            line,
            next: next_word(line, 0),
        }
    }

    /// What stands next.
    pub fn head(&self) -> Head<'a>
        ensures shows { Shows self.now result }
        ensures column { FitsColumn result }
    {
        match self.next {
            Next::End => Head::End {
                at: self.line.len(),
            },
            Next::Bad { start, .. } => Head::Bad { at: start },
            Next::Found { start, end } => Head::Word {
                at: start,
                text: &self.line[start..end],
            },
        }
    }

    /// Goes past the next word, where there is one.
    pub fn advance(&mut self)
        ensures { self.new ≡ rest_of self.old }
    {
        if let Next::Found { end, .. } = self.next {
            self.next = next_word(self.line, end);
        }
    }
}
