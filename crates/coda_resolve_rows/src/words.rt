// Texts as lines and words.
use std::alloc::Global;

/// The lines of a text.
pub fn lines(alloc: Global, text: &str) -> Vec<&str> {
    parts(alloc, text, '\n')
}

/// The parts between the places where a character stands.
pub fn parts(alloc: Global, text: &str, between: char) -> Vec<&str> {
    let mut parts = Vec::new(alloc);
    for part in text.split(between) {
        let _ = parts.push(part);
    }
    parts
}

/// The word at a place of a text, and nothing behind the last.
pub fn word(text: &str, at: usize) -> &str {
    text.split(' ').nth(at).unwrap_or("")
}

/// The number at a place of a text, and 0 where there is none.
pub fn number(text: &str, at: usize) -> u64 {
    word(text, at).parse::<u64>().unwrap_or(0)
}
