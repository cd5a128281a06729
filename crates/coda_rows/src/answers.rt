// Lines of a row, each with what is made of it on the line below.
use crate::calls::put_called;
use crate::texts::{odd_lines, put, put_parts};
use coda_script::{Line, LineFault, read_line};
use coda_text::{TextFault, Token, printed, tokens, unquote};
use std::alloc::{AllocError, Global};

/// What is made of the lines.
#[derive(Clone, Copy)]
pub enum Kind {
    /// What each says, as a line of a script.
    Said,
    /// Its words.
    Words,
    /// The answer of the call that it is.
    Called,
}

// Puts the debug text of what a line says; nothing; or its first wrong column and what is wrong there.
fn put_reading(said: &Result<Option<Line>, LineFault>, out: &mut String) {
    match said {
        Ok(Some(said)) => {
            let _ = write!(out, "{said:?}");
        }
        Ok(None) => {}
        Err(LineFault::BadLine { column, kind }) => {
            let _ = write!(out, "{column} {kind}");
        }
        Err(LineFault::Memory) => put(out, "no memory"),
    }
}

// Puts a word: its span, and in angles the bytes that it stands for, as they are printed.
fn put_word(alloc: Global, line: &[u8], word: &Token, out: &mut String) -> Result<(), AllocError> {
    let (start, end) = (word.start, word.end);
    let bytes = unquote(alloc, line.get(start..end).unwrap_or(b""))?;
    let shown = printed(alloc, bytes.bytes())?;
    let shown = std::str::from_utf8(shown.bytes()).unwrap_or("");
    write!(out, "{start} {end} <{shown}> ")
}

// Puts the words of a line, or the span of the first that is none.
fn put_words(alloc: Global, line: &[u8], out: &mut String) {
    match tokens(alloc, line) {
        Ok(words) => {
            for word in &words {
                let _ = put_word(alloc, line, word, out);
            }
        }
        Err(TextFault::BadWord { start, end }) => {
            let _ = write!(out, "no word {start} {end}");
        }
        Err(TextFault::Memory) => put(out, "no memory"),
    }
}

// Puts what is made of a line.
fn put_answer(rt: &HostRuntime, line: &[u8], kind: Kind, out: &mut String) {
    match kind {
        Kind::Said => put_reading(&read_line(rt.alloc(), line), out),
        Kind::Words => put_words(rt.alloc(), line, out),
        Kind::Called => put_called(rt, std::str::from_utf8(line).unwrap_or(""), out),
    }
}

/// The odd lines of a text, each with what is made of it on the line below.
pub fn answered(rt: &HostRuntime, text: &[u8], kind: Kind) -> Vec<u8> {
    let mut whole = Vec::new(rt.alloc());
    for line in &odd_lines(rt.alloc(), text) {
        let mut out = String::new(rt.alloc());
        put_answer(rt, line, kind, &mut out);
        put_parts(&mut whole, &[line, b"\n", out.as_bytes(), b"\n"]);
    }
    whole
}
