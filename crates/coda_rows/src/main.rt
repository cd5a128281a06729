//! The worked rows. Each file that the command line names has a script, with its report in a file beside it, or lines
//! of a script, or calls, each with what must be answered on the line below. The program prints how each row compares.
#![tactic(auto)]

mod answers;
mod calls;
mod header;
mod outlets;
mod repeats;
mod scripts;
mod texts;

use crate::answers::{Kind, answered};
use crate::repeats::repeated;
use crate::scripts::reported;
use crate::texts::{compare, named};
use std::{env, fs, io};

// A file, with its repetitions written out if it is a text. One that can't be read is a text that no row comes to.
fn contents(rt: &HostRuntime, path: &str) -> Vec<u8> {
    let Ok(bytes) = fs::read(rt, path) else {
        return repeated(rt.alloc(), "a file that can't be read\n").into_bytes();
    };
    match std::str::from_utf8(&bytes) {
        Ok(text) => repeated(rt.alloc(), text).into_bytes(),
        Err(_) => bytes,
    }
}

/// What a file is.
#[derive(Clone, Copy)]
enum Row {
    Script,
    Lines(Kind),
}

// By the ending of its name.
const ENDINGS: &[(&str, Row)] = &[
    ("coda", Row::Script),
    ("lines", Row::Lines(Kind::Said)),
    ("words", Row::Lines(Kind::Words)),
    ("calls", Row::Lines(Kind::Called)),
];

// The report of a script.
fn report(rt: &HostRuntime, place: &str) -> Vec<u8> {
    let path = format!(in rt.alloc(); "{place}.report");
    contents(rt, path.unwrap_or(String::new(rt.alloc())).as_str())
}

// Puts how the row of a file compares.
fn compare_row(rt: &HostRuntime, path: &str, place: &str, row: Row, told: &mut String) {
    let text = contents(rt, path);
    match row {
        Row::Script => compare(
            rt.alloc(),
            &report(rt, place),
            &reported(rt.alloc(), &text),
            told,
        ),
        Row::Lines(kind) => compare(rt.alloc(), &text, &answered(rt, &text, kind), told),
    }
}

// Prints how the row of a file compares, if it is one.
fn print_row(rt: &HostRuntime, path: &str) -> io::Result<()> {
    let (place, ending) = path.rsplit_once('.').unwrap_or((path, ""));
    if let Some(row) = named(ENDINGS, ending) {
        let (_, name) = place.rsplit_once('/').unwrap_or(("", place));
        let mut told = String::new(rt.alloc());
        compare_row(rt, path, place, row, &mut told);
        println!(rt; "{name} {told}")?;
    }
    Ok(())
}

fn main(rt: HostRuntime) -> io::Result<()> {
    let mut words = env::args(&rt)?;
    let _program = words.next();
    for path in words {
        print_row(&rt, path.as_str())?;
    }
    Ok(())
}
