// How contents, modes and numbers are printed.
ghost use Rattle.std.specs.Prelude.{◌≡◌, ◌∷◌, ◌++◌, ◌/◌, ◌%◌, ◌<◌, OnOk, string_bytes};
ghost use Rattle.std.specs.Fmt.{decimal};
ghost use Rattle.coda_fid.specs.Fid.{fid_text, sid_text};
ghost use Rattle.coda_report.specs.Printing.{text_of_content, mode_text};

use coda_fid::{Fid, Sid};
use coda_text::{put_byte, put_quoted};
use itoa::Buffer;
use std::alloc::AllocError;

/// The most bytes of a content or a target that are printed.
pub(crate) const MOST_CONTENT: usize = 64;

/// Puts a content or a target: its first bytes between quotes, and two dots where there are more.
pub fn put_content(out: &mut String, bytes: &[u8]) -> Result<(), AllocError>
    ensures { OnOk result (string_bytes out.new ≡ string_bytes out.old ++ text_of_content bytes.now) }
{
    if bytes.len() <= MOST_CONTENT {
        return put_quoted(out, bytes);
    }
    let (first, _) = bytes.split_at(MOST_CONTENT);
    put_quoted(out, first)?;
    out.push_str("..")
}

// Puts a number of one digit.
fn put_digit(out: &mut String, number: u64) -> Result<(), AllocError>
    requires { number < 10 }
    ensures { OnOk result (string_bytes out.new ≡ string_bytes out.old ++ decimal number) }
{
    put_byte(out, 48 + number as u8)
}

/// Puts a number in decimal digits.
pub fn put_number(out: &mut String, number: u64) -> Result<(), AllocError>
    ensures { OnOk result (string_bytes out.new ≡ string_bytes out.old ++ decimal number) }
{
    if number < 10 {
        return put_digit(out, number);
    }
    let mut digits = Buffer::new();
    out.push_str(digits.format(number))
}

/// Puts a number behind a blank.
pub fn put_next_number(out: &mut String, number: u64) -> Result<(), AllocError>
    ensures { OnOk result (string_bytes out.new ≡ string_bytes out.old ++ 32 ∷ decimal number) }
{
    put_byte(out, b' ')?;
    put_number(out, number)
}

/// Puts an identifier of an object.
pub fn put_fid(out: &mut String, fid: Fid) -> Result<(), AllocError>
    ensures { OnOk result (string_bytes out.new ≡ string_bytes out.old ++ fid_text fid) }
{
    put_number(out, u64::from(fid.volume))?;
    put_byte(out, b'.')?;
    put_number(out, u64::from(fid.vnode))?;
    put_byte(out, b'.')?;
    put_number(out, u64::from(fid.uniq))
}

/// Puts a store identifier.
pub fn put_sid(out: &mut String, sid: Sid) -> Result<(), AllocError>
    ensures { OnOk result (string_bytes out.new ≡ string_bytes out.old ++ sid_text sid) }
{
    put_number(out, u64::from(sid.client))?;
    put_byte(out, b'.')?;
    put_number(out, sid.number)
}

/// Puts a mode as four octal digits.
pub fn put_mode(out: &mut String, mode: u16) -> Result<(), AllocError>
    ensures { OnOk result (string_bytes out.new ≡ string_bytes out.old ++ mode_text mode) }
{
    let (first, owner) = (mode / 512 % 8, mode / 64 % 8);
    let (group, other) = (mode / 8 % 8, mode % 8);
    put_digit(out, u64::from(first))?;
    put_digit(out, u64::from(owner))?;
    put_digit(out, u64::from(group))?;
    put_digit(out, u64::from(other))
}
