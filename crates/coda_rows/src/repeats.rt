// Repetitions in the files of rows: `{3 ab}` stands for `ababab`, and `{8..10 a%,}` for `a8,a9,a10,`.
use crate::texts::put;
use std::alloc::Global;

// Puts a part, with a number for each `%`.
fn put_numbered(whole: &mut String, part: &str, number: u64) {
    let mut is_behind = false;
    for piece in part.split('%') {
        if is_behind {
            let _ = write!(whole, "{number}");
        }
        put(whole, piece);
        is_behind = true;
    }
}

// Puts what stands between braces as often as it says. Is it a repetition?
fn is_written_out(whole: &mut String, inside: &str) -> bool {
    let (numbers, part) = inside.split_once(' ').unwrap_or((inside, ""));
    let (first, last) = numbers.split_once("..").unwrap_or(("1", numbers));
    let (Ok(first), Ok(last)) = (first.parse::<u64>(), last.parse::<u64>()) else {
        return false;
    };
    let is_numbered = part.split('%').nth(1).is_some();
    for number in first..last.saturating_add(1) {
        if is_numbered {
            put_numbered(whole, part, number);
        } else {
            put(whole, part);
        }
    }
    true
}

// Puts what stands behind a brace.
fn put_behind(whole: &mut String, part: &str) {
    match part.split_once('}') {
        Some((inside, rest)) if is_written_out(whole, inside) => put(whole, rest),
        _ => {
            put(whole, "{");
            put(whole, part);
        }
    }
}

/// A text with its repetitions written out.
pub fn repeated(alloc: Global, text: &str) -> String {
    let mut whole = String::new(alloc);
    let mut is_behind = false;
    for part in text.split('{') {
        if is_behind {
            put_behind(&mut whole, part);
        } else {
            put(&mut whole, part);
        }
        is_behind = true;
    }
    whole
}
