// How bytes are printed so that they are read again.
ghost use Rattle.std.specs.Prelude.{◌≡◌, ◌<◌, ◌∷◌, [], ◌++◌, ◌/◌, ◌%◌, IfOk, OnOk, IsTrue, string_bytes};
ghost use Rattle.std.specs.List.{flat_map, list_all};
ghost use Rattle.coda_text.specs.Texts.{hex_digit, escaped, quoted, is_open_byte, is_open, printed};
ghost use Rattle.coda_text.specs.Printed.{IsWordFor};

use coda_fid::Bytes;
use std::alloc::{AllocError, Global};
use std::str;

/// Puts an ASCII byte.
pub fn put_byte(out: &mut String, byte: u8) -> Result<(), AllocError>
    requires { byte < 128 }
    ensures { OnOk result (string_bytes out.new ≡ string_bytes out.old ++ byte ∷ []) }
{
    out.push(char::from(byte))
}

fn hex_digit(number: u8) -> u8
    requires { number < 16 }
    ensures digit { result ≡ hex_digit number }
    ensures ascii { result < 128 }
{
    if number <= 9 {
        48 + number
    } else {
        87 + number
    }
}

fn put_hex(out: &mut String, byte: u8) -> Result<(), AllocError>
    ensures { OnOk result (string_bytes out.new ≡ string_bytes out.old ++ 92 ∷ 120 ∷ hex_digit (byte / 16) ∷ hex_digit (byte % 16) ∷ []) }
{
    out.push_str("\\x")?;
    put_byte(out, hex_digit(byte / 16))?;
    put_byte(out, hex_digit(byte % 16))
}

fn put_escaped_byte(out: &mut String, byte: u8) -> Result<(), AllocError>
    ensures { OnOk result (string_bytes out.new ≡ string_bytes out.old ++ escaped byte) }
{
    if byte == b'"' || byte == b'\\' {
        put_byte(out, b'\\')?;
        put_byte(out, byte)
    } else if byte >= 32 && byte <= 126 {
        put_byte(out, byte)
    } else {
        put_hex(out, byte)
    }
}

fn put_escaped(out: &mut String, bytes: &[u8]) -> Result<(), AllocError>
    ensures { OnOk result (string_bytes out.new ≡ string_bytes out.old ++ flat_map escaped bytes.now) }
{
    for byte in bytes {
        put_escaped_byte(out, *byte)?;
    }
    Ok(())
}

/// Puts bytes between quotes, with `"` and `\` behind a `\`, and bytes outside 0x20 to 0x7E as `\xhh` in lower case.
pub fn put_quoted(out: &mut String, bytes: &[u8]) -> Result<(), AllocError>
    ensures { OnOk result (string_bytes out.new ≡ string_bytes out.old ++ quoted bytes.now) }
{
    put_byte(out, b'"')?;
    put_escaped(out, bytes)?;
    put_byte(out, b'"')
}

fn is_open_byte(byte: u8) -> bool
    ensures { result ≡ is_open_byte byte }
{
    byte >= 33 && byte <= 126 && byte != b'"' && byte != b'\\'
}

fn all_open(bytes: &[u8]) -> bool
    ensures { result ≡ list_all is_open_byte bytes.now }
{
    for byte in bytes {
        if !is_open_byte(*byte) {
            return false;
        }
    }
    true
}

// Whether bytes are printed as they are.
fn is_open(bytes: &[u8]) -> bool
    ensures { result ≡ is_open bytes.now }
{
    !bytes.is_empty() && all_open(bytes)
}

// Puts plain bytes as they are.
fn put_plain(out: &mut String, bytes: &[u8]) -> Result<(), AllocError>
    requires { IsTrue (is_open bytes.now) }
    ensures { OnOk result (string_bytes out.new ≡ string_bytes out.old ++ bytes.now) }
{
    out.push_str(str::from_utf8(bytes).unwrap())
}

/// Puts bytes as they are printed: as they are where there is at least one and each is of 0x21 to 0x7E other than `"` and
/// `\`, and else between quotes.
pub fn put_printed(out: &mut String, bytes: &[u8]) -> Result<(), AllocError>
    ensures { OnOk result (string_bytes out.new ≡ string_bytes out.old ++ printed bytes.now) }
{
    if is_open(bytes) {
        put_plain(out, bytes)
    } else {
        put_quoted(out, bytes)
    }
}

// The bytes of what is printed.
fn print(alloc: Global, bytes: &[u8]) -> Result<Bytes, AllocError>
    ensures { IfOk result (λ text. text ≡ printed bytes.now) }
{
    let mut out = String::new(alloc);
    put_printed(&mut out, bytes)?;
    Ok(Bytes::from_vec(out.into_bytes()))
}

/// How bytes are printed: as they are where there is at least one and each is of 0x21 to 0x7E other than `"` and `\`;
/// else between quotes, with `"` and `\` behind a `\`, and bytes outside 0x20 to 0x7E as `\xhh` in lower case.
pub fn printed(alloc: Global, bytes: &[u8]) -> Result<Bytes, AllocError>
    ensures text { IfOk result (λ text. text ≡ printed bytes.now) }

    // It is one word of a line, which stands for the bytes.
    ensures word { IfOk result (λ text. IsWordFor text bytes.now) }
{
    print(alloc, bytes)
}
