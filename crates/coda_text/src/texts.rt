ghost use Rattle.std.specs.Prelude.{◌≡◌, ◌++◌, ◌<◌, List, ℕ, IfOk, OnOk, length};
ghost use Rattle.std.specs.Option.{option_to_list};
ghost use Rattle.std.specs.List.{list_all, AllByRecursion, flat_map};
ghost use Rattle.coda_text.specs.Texts.{hex_value, gives, after, value_of, is_quoted, printed, decoded};
ghost use Rattle.coda_text.specs.Printed.{AreBytes, IsWordFor};

use coda_fid::Bytes;
use std::alloc::{AllocError, Global};

/// Where in an escape a byte between quotes stands.
#[derive(Clone, Copy, Debug, PartialEq, Eq)]
pub enum Escape {
    /// In none.
    Plain,
    /// Behind the backslash.
    Slash,
    /// Before the first hexadecimal digit.
    High,
    /// Before the second, with the value of the first.
    Low(u8),
}

fn hex_value(digit: u8) -> u8
    ensures value { result ≡ hex_value digit }
    ensures small { result < 16 }
{
    if digit <= b'9' {
        digit.saturating_sub(b'0') % 16
    } else if digit <= b'F' {
        digit.saturating_sub(55) % 16
    } else {
        digit.saturating_sub(87) % 16
    }
}

// The byte that a byte between quotes completes.
fn gives(state: Escape, byte: u8) -> Option<u8>
    ensures { result ≡ gives state byte }
{
    match state {
        Escape::Plain => {
            if byte == b'"' || byte == b'\\' {
                None
            } else {
                Some(byte)
            }
        }
        Escape::Slash => {
            if byte == b'x' {
                None
            } else if byte == b'n' {
                Some(b'\n')
            } else {
                Some(byte)
            }
        }
        Escape::High => None,
        Escape::Low(high) => {
            let low = hex_value(byte);
            Some(16 * (high % 16) + low)
        }
    }
}

// Where the byte behind it stands.
fn after(state: Escape, byte: u8) -> Escape
    ensures { result ≡ after state byte }
{
    match state {
        Escape::Plain => {
            if byte == b'\\' {
                Escape::Slash
            } else {
                Escape::Plain
            }
        }
        Escape::Slash => {
            if byte == b'x' {
                Escape::High
            } else {
                Escape::Plain
            }
        }
        Escape::High => Escape::Low(hex_value(byte)),
        Escape::Low(_) => Escape::Plain,
    }
}

/// Whether a word is quoted: whether it begins with `"`.
pub fn is_quoted(word: &[u8]) -> bool
    ensures { result ≡ is_quoted word.now }
{
    match word {
        [] => false,
        [first, ..] => *first == b'"',
    }
}

fn put_given(out: &mut Vec<u8>, given: Option<u8>) -> Result<(), AllocError>
    ensures { OnOk result (out.new.items ≡ out.old.items ++ option_to_list given) }
{
    match given {
        None => Ok(()),
        Some(byte) => {
            out.push(byte)?;
            Ok(())
        }
    }
}

fn decode(alloc: Global, word: &[u8]) -> Result<Vec<u8>, AllocError>
    ensures { IfOk result (λ v. v.items ≡ decoded Escape.Plain word.now) }
{
    let mut out = Vec::with_capacity(alloc, word.len())?;
    let mut state = Escape::Plain;
    for byte in word {
        put_given(&mut out, gives(state, *byte))?;
        state = after(state, *byte);
    }
    Ok(out)
}

// The bytes that a word stands for.
fn read_word(alloc: Global, word: &[u8]) -> Result<Bytes, AllocError>
    ensures { IfOk result (λ bytes. bytes ≡ value_of word.now) }
{
    if is_quoted(word) {
        Ok(Bytes::from_vec(decode(alloc, word)?))
    } else {
        Bytes::of(alloc, word)
    }
}

/// The bytes that a word stands for: a bare one for itself, a quoted one for what stands between its quotes, with the
/// escapes replaced.
pub fn unquote(alloc: Global, word: &[u8]) -> Result<Bytes, AllocError>
    ensures value { IfOk result (λ bytes. bytes ≡ value_of word.now) }

    // What was printed is read again.
    ensures printed { IfOk result (λ bytes. (was : List ℕ) → AreBytes was → printed was ≡ word.now → bytes ≡ was) }
{
    read_word(alloc, word)
}

/// What is printed is one word of a line, and stands for the bytes that were printed.
pub fn what_is_printed_is_read_again()
    ensures { (bytes : List ℕ) → AreBytes bytes → IsWordFor (printed bytes) bytes }
{}
