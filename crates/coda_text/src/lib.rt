//! The words of a line of a script, the numbers and texts that they stand for, and how bytes are printed so that they
//! are read again.
//!
//! Words are what stands between spaces and tabs. A bare word is made of bytes above the blank, but for delete (0x7F) and `"`.
//! A quoted word stands between two `"`; it is made of the blank and of bytes above it, but for delete, and `"` and `\` are
//! written `\"` and `\\`, a newline `\n`, and any byte `\xHH`, with digits of either case. The next thing behind a quoted word
//! is a separator or the end of the line.
#![tactic(auto)]

mod cursor;
mod laws;
mod numbers;
mod printing;
mod splitting;
mod texts;
mod words;

pub use cursor::{Cursor, Head};
pub use laws::{lines_are_their_words, pieces_are_read, words_are_spelled};
pub use numbers::{number, octal};
pub use printing::{printed, put_byte, put_printed, put_quoted};
pub use splitting::{TextFault, Token, tokens};
pub use texts::{is_quoted, unquote, what_is_printed_is_read_again};
pub use words::is_separator;
