// Texts as lines and words, and how two of them compare. Where there is no memory for what is put, it lacks, and the row
// differs.
use std::alloc::Global;

/// The lines of a text. Behind its last newline stands one without bytes.
pub fn lines(alloc: Global, text: &[u8]) -> Vec<&[u8]> {
    let mut lines = Vec::new(alloc);
    let mut start = 0;
    for at in 0..text.len() {
        if text[at] == b'\n' {
            let _ = lines.push(text.get(start..at).unwrap_or(&[]));
            start = at + 1;
        }
    }
    let _ = lines.push(text.get(start..).unwrap_or(&[]));
    lines
}

/// Of each two lines of a text the first.
pub fn odd_lines(alloc: Global, text: &[u8]) -> Vec<&[u8]> {
    let lines = lines(alloc, text);
    let mut odd = Vec::new(alloc);
    for pair in 0..lines.len() / 2 {
        let _ = odd.push(lines[2 * pair]);
    }
    odd
}

/// The word at a place of a line, and nothing behind the last.
pub fn word(line: &str, at: usize) -> &str {
    line.split(' ').nth(at).unwrap_or("")
}

/// The number at a place of a line, and 0 where there is none.
pub fn number(line: &str, at: usize) -> u64 {
    word(line, at).parse::<u64>().unwrap_or(0)
}

/// The bytes whose hexadecimal digits stand from a place of a line on.
pub fn bytes(alloc: Global, line: &str, from: usize) -> Vec<u8> {
    let mut bytes = Vec::new(alloc);
    for digits in line.split(' ').skip(from) {
        if let Ok(decoded) = hex::decode(alloc, digits) {
            put_parts(&mut bytes, &[&decoded]);
        }
    }
    bytes
}

/// What a table has for a word, if it has anything.
pub fn named<T: Copy>(table: &[(&str, T)], word: &str) -> Option<T> {
    for row in table {
        if row.0 == word {
            return Some(row.1);
        }
    }
    None
}

/// Puts a word.
pub fn put(out: &mut String, word: &str) {
    let _ = out.push_str(word);
}

/// Puts parts of a text.
pub fn put_parts(out: &mut Vec<u8>, parts: &[&[u8]]) {
    for part in parts {
        let _ = out.extend_from_slice(part);
    }
}

// The line at a place, as far as it can be shown.
fn shown<'a>(lines: &[&'a [u8]], at: usize) -> &'a str {
    match lines.get(at) {
        Some(line) => std::str::from_utf8(line).unwrap_or("bytes that are no text"),
        None => "",
    }
}

// Puts the first line in which two texts differ, both sides.
fn put_difference(wanted: &[&[u8]], found: &[&[u8]], out: &mut String) {
    for at in 0..wanted.len().saturating_add(1) {
        if wanted.get(at) != found.get(at) {
            let number = at.saturating_add(1);
            let (line, other) = (shown(wanted, at), shown(found, at));
            let _ = write!(
                out,
                "differs at line {number}\n    wanted: {line}\n    found:  {other}"
            );
            return;
        }
    }
}

/// Puts `ok` where both texts are the same; else the first line in which they differ, both sides.
pub fn compare(alloc: Global, wanted: &[u8], found: &[u8], out: &mut String) {
    if wanted == found {
        put(out, "ok");
    } else {
        put_difference(&lines(alloc, wanted), &lines(alloc, found), out);
    }
}
