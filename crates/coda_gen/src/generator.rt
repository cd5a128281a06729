ghost use Rattle.std.specs.Prelude.{◌≡◌, ◌↔◌, ◌<◌, ◌≤◌, ◌++◌, [], take, IfOk, OnOk, string_bytes, slice_index_or};
ghost use Rattle.coda_gen.specs.Generated.{generated, line_of, lines_text, next_number, opening, script_lines, with_newline, giveup_or_mode};

use crate::GenFault;
use coda_fid::Bytes;
use std::alloc::{AllocError, Global};
use std::fmt::Write;

// The most lines that a script has.
const LONGEST: u64 = 200_000;

// How many lines make the actors.
const OPENING: u64 = 5;

// One of the lines that make a volume, two clients and their links.
fn opening_line(index: u64) -> &'static str
    requires { index < 5 }
    ensures { result.now ≡ slice_index_or opening index [] }
{
    match index {
        0 => "volume 7 on 1 2",
        1 => "client 1 cache 4096",
        2 => "client 2 cache 4096",
        3 => "link 1 1 strong",
        _ => "link 2 1 strong",
    }
}

// Puts the first lines of those.
fn put_opening(out: &mut String, count: u64) -> Result<(), AllocError>
    requires { count ≤ 5 }
    ensures { OnOk result (string_bytes out.new ≡ string_bytes out.old ++ lines_text (take count opening)) }
{
    for index in 0..count {
        let line = opening_line(index);
        writeln!(out, "{line}")?;
    }
    Ok(())
}

// The number after x, by a linear congruence.
fn after(x: u64) -> u64
    ensures { result ≡ next_number x }
{
    x.wrapping_mul(6_364_136_223_846_793_005)
        .wrapping_add(1_442_695_040_888_963_407)
}

// Puts what a client does with a drawn number.
fn put_line(out: &mut String, drawn: u64) -> Result<(), AllocError>
    ensures { OnOk result (string_bytes out.new ≡ string_bytes out.old ++ with_newline (line_of drawn)) }
{
    let client = 1 + drawn % 2;
    let object = drawn / 16 % 64;
    match drawn / 2 % 8 {
        0 => writeln!(out, "mkdir {client} 7 /d{object}"),
        1 => writeln!(out, "create {client} 7 /f{object}"),
        2 => {
            let length = 16 * object;
            writeln!(out, "store {client} 7 /f{object} fill {length} 65")
        }
        3 => writeln!(out, "remove {client} 7 /f{object}"),
        4 => writeln!(out, "rmdir {client} 7 /d{object}"),
        5 => {
            let other = (object + 1) % 64;
            writeln!(out, "rename {client} 7 /f{object} /f{other}")
        }
        6 => writeln!(out, "drain {client} 7 1 window 0"),
        _ => put_giveup_or_mode(out, client, object, drawn),
    }
}

// Puts a line that gives a client's log up, or one that sets a file's mode.
fn put_giveup_or_mode(
    out: &mut String,
    client: u64,
    object: u64,
    drawn: u64,
) -> Result<(), AllocError>
    ensures { OnOk result (string_bytes out.new ≡ string_bytes out.old ++ with_newline (giveup_or_mode client object drawn)) }
{
    if drawn / 1024 % 4 == 0 {
        writeln!(out, "giveup {client} 7")
    } else {
        writeln!(out, "setattr {client} 7 /f{object} mode 600")
    }
}

// Puts one line for each number after the start.
fn put_generated(out: &mut String, start: u64, count: u64) -> Result<(), AllocError>
    ensures { OnOk result (string_bytes out.new ≡ string_bytes out.old ++ lines_text (generated count start)) }
{
    let mut x = start;
    for _index in 0..count {
        x = after(x);
        put_line(out, x >> 33)?;
    }
    Ok(())
}

/// The first lines of the script that a number starts, each with its newline.
///
/// The first five make volume 7 on two servers, two clients and their links. Each other line is what a client does, as
/// the numbers of a linear congruence have it: it makes, fills, moves or removes one of 64 files and 64 directories,
/// sends its log, or gives it up.
///
/// # Errors
///
/// `TooMany` exactly for more than 200,000 lines.
pub fn script(alloc: Global, start: u64, lines: u64) -> Result<Bytes, GenFault>
    ensures text { IfOk result (λ text. text ≡ lines_text (script_lines start lines)) }
    ensures many { (result ≡ Err GenFault.TooMany) ↔ (200000 < lines) }
{
    if lines > LONGEST {
        return Err(GenFault::TooMany);
    }
    let mut out = String::new(alloc);
    put_opening(&mut out, lines.min(OPENING))?;
    put_generated(&mut out, start, lines.saturating_sub(OPENING))?;
    Ok(Bytes::from_vec(out.into_bytes()))
}
