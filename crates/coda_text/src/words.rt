// How a line falls into words.
ghost use Rattle.std.specs.Prelude.{◌≡◌, ◌<◌, ◌≤◌, length, slice_range};
ghost use Rattle.std.specs.Bool.{OnFalse};
ghost use Rattle.coda_text.specs.Words.{is_separator, is_bare, is_plain, is_hex, opens, goes_on, may_end};
ghost use Rattle.coda_text.specs.declared.words.Part.TheVariants.{Bare};
ghost use Rattle.coda_text.specs.Steps.{is_end, Finds, Finishes, AtWord, split_from};

/// Where in a word a byte stands.
#[derive(Clone, Copy, Debug, PartialEq, Eq)]
pub enum Part {
    /// In a bare word.
    Bare,
    /// Between quotes.
    Inside,
    /// Behind the backslash of an escape.
    Escape,
    /// Before the first hexadecimal digit of an escape.
    High,
    /// Before its second.
    Low,
    /// Behind the closing quote.
    Closed,
}

/// What stands next on a line.
#[derive(Clone, Copy, Debug, PartialEq, Eq)]
pub enum Next {
    /// The line's end.
    End,
    /// The beginning of what is no word, and the byte that breaks it, or the line's end.
    Bad { start: usize, end: usize },
    /// A word: its first byte, and the one behind its last.
    Found { start: usize, end: usize },
}

/// Whether the byte separates words: a space or a tab.
pub fn is_separator(byte: u8) -> bool
    ensures { result ≡ is_separator byte }
{
    byte == b' ' || byte == b'\t'
}

fn is_bare(byte: u8) -> bool
    ensures { result ≡ is_bare byte }
{
    byte >= 0x21 && byte != 0x7f && byte != b'"'
}

fn is_plain(byte: u8) -> bool
    ensures { result ≡ is_plain byte }
{
    byte >= 0x20 && byte != 0x7f && byte != b'"' && byte != b'\\'
}

fn is_hex(byte: u8) -> bool
    ensures { result ≡ is_hex byte }
{
    matches!(byte, b'0'..=b'9' | b'A'..=b'F' | b'a'..=b'f')
}

// The part of a word that its first byte opens.
fn opens(byte: u8) -> Option<Part>
    ensures { result ≡ opens byte }
{
    if byte == b'"' {
        Some(Part::Inside)
    } else if is_bare(byte) {
        Some(Part::Bare)
    } else {
        None
    }
}

// The part of a word behind one more byte.
fn goes_on(part: Part, byte: u8) -> Option<Part>
    ensures { result ≡ goes_on part byte }
{
    match part {
        Part::Bare => is_bare(byte).then_some(Part::Bare),
        Part::Inside => {
            if byte == b'"' {
                Some(Part::Closed)
            } else if byte == b'\\' {
                Some(Part::Escape)
            } else {
                is_plain(byte).then_some(Part::Inside)
            }
        }
        Part::Escape => {
            if byte == b'x' {
                Some(Part::High)
            } else {
                (byte == b'"' || byte == b'\\' || byte == b'n').then_some(Part::Inside)
            }
        }
        Part::High => is_hex(byte).then_some(Part::Low),
        Part::Low => is_hex(byte).then_some(Part::Inside),
        Part::Closed => None,
    }
}

// Whether a word may end there.
fn may_end(part: Part) -> bool
    ensures { result ≡ may_end part }
{
    match part {
        Part::Bare => true,
        Part::Closed => true,
        Part::Inside => false,
        Part::Escape => false,
        Part::High => false,
        Part::Low => false,
    }
}

// The first byte from there on that is no separator.
fn skip(line: &[u8], from: usize) -> usize
    requires { from ≤ length line.now }
    ensures after { from ≤ result }
    ensures within { result ≤ length line.now }
    ensures same { split_from line.now from ≡ split_from line.now result }
    ensures here { AtWord line.now result }
{
    let mut at = from;
    while at < line.len() && is_separator(line[at]) {
        at += 1;
    }
    at
}

// Whether what is in that part ends there: the line does, or a separator stands where a word may end.
fn is_end(line: &[u8], at: usize, part: Part) -> bool
    ensures value { result ≡ is_end line.now at part }
    ensures inside { OnFalse result (at < length line.now) }
{
    at >= line.len() || (may_end(part) && is_separator(line[at]))
}

// The rest of what began there, from its second byte on.
fn finish(line: &[u8], start: usize, first: Part) -> Next
    requires { start < length line.now }
    ensures { Finishes line.now start first result }
{
    let mut part = first;
    let mut at = start + 1;
    while !is_end(line, at, part) {
        match goes_on(part, line[at]) {
            None => return Next::Bad { start, end: at },
            Some(next) => part = next,
        }
        at += 1;
    }
    if may_end(part) {
        Next::Found { start, end: at }
    } else {
        Next::Bad { start, end: at }
    }
}

// The rest of a bare word that began there, from its second byte on: most words are such.
fn finish_bare(line: &[u8], start: usize) -> Next
    requires { start < length line.now }
    ensures { Finishes line.now start Bare result }
{
    let mut at = start + 1;
    while at < line.len() && is_bare(line[at]) {
        at += 1;
    }
    if is_end(line, at, Part::Bare) {
        Next::Found { start, end: at }
    } else {
        Next::Bad { start, end: at }
    }
}

/// What stands next on the line from there on.
pub fn next_word(line: &[u8], from: usize) -> Next
    requires { from ≤ length line.now }
    ensures { Finds line.now from result }
{
    let start = skip(line, from);
    if start == line.len() {
        return Next::End;
    }
    match opens(line[start]) {
        None => Next::Bad { start, end: start },
        Some(Part::Bare) => finish_bare(line, start),
        Some(part) => finish(line, start, part),
    }
}
