ghost use Rattle.std.specs.Prelude.{◌≡◌};
ghost use Rattle.coda_text.specs.Words.{split_of};
ghost use Rattle.coda_text.specs.Tokens.{Splits, FindsPrinted};
ghost use Rattle.coda_text.specs.declared.splitting.TextFault.TheVariants.{Memory};

use crate::texts::is_quoted;
use crate::words::{Next, next_word};
use std::alloc::{AllocError, AllocFailed, Global};
use thiserror::Error;

/// A word of a line.
#[derive(Clone, Copy, Debug, PartialEq, Eq)]
pub struct Token {
    /// Its first byte, counted from 0.
    pub start: usize,
    /// The byte behind its last.
    pub end: usize,
    /// Whether it is quoted.
    pub quoted: bool,
}

/// Why a line has no tokens.
#[derive(Clone, Copy, Debug, PartialEq, Eq, Error)]
pub enum TextFault {
    /// What begins at the first byte is no word, since the byte at the end breaks it; or the line ends within it.
    #[error("the bytes from {start} are no word")]
    BadWord { start: usize, end: usize },
    /// There was no memory for the tokens.
    #[error("out of memory for the tokens of a line")]
    Memory,
}

impl From<AllocError> for TextFault {
    ghost from_gives = { λ _ e. e ≡ Memory };

    fn from(_e: AllocError) -> TextFault {
        TextFault::Memory
    }
}

impl<T: Drop> From<AllocFailed<T>> for TextFault {
    ghost from_gives = { λ _ e. e ≡ Memory };

    fn from(_e: AllocFailed<T>) -> TextFault {
        TextFault::Memory
    }
}

// The words of a line, one after the other.
fn split(alloc: Global, line: &[u8]) -> Result<Vec<Token>, TextFault>
    ensures { Splits (split_of line.now) result }
{
    let mut out = Vec::new(alloc);
    let mut at = 0;
    loop {
        match next_word(line, at) {
            Next::End => return Ok(out),
            Next::Bad { start, end } => return Err(TextFault::BadWord { start, end }),
            Next::Found { start, end } => {
                let quoted = is_quoted(&line[start..end]);
                out.push(Token { start, end, quoted })?;
                at = end;
            }
        }
    }
}

/// The words of a line, in order. Takes memory for them alone, and goes once over the line.
///
/// # Errors
///
/// `BadWord` exactly where some part of the line that stands between separators is no word, with the span of the first
/// such: from its first byte to the byte that breaks it, or to the line's end.
pub fn tokens(alloc: Global, line: &[u8]) -> Result<Vec<Token>, TextFault>
    ensures splits { Splits (split_of line.now) result }

    // What was printed is one token.
    ensures printed { FindsPrinted line.now result }
{
    split(alloc, line)
}
