// One word of a line.
ghost use Rattle.std.specs.Prelude.{◌≡◌, ◌≤◌, ◌<◌, ◌+◌, Err, IfOk, IfSome, option_and_then, if◌then◌else◌};
ghost use Rattle.coda_engine.specs.declared.status.Kind.TheVariants as kinds;
ghost use Rattle.coda_text.specs.Words.{rest_of};
ghost use Rattle.coda_script.specs.Slots.{within, between, octal, any, sized, number_in, path_of, path_in, name_in, strip, letters_in, rights_in, text_in, is_word};
ghost use Rattle.coda_script.specs.Reading.{slot_at, is_next, wrong_at, end_at, read};
ghost use Rattle.coda_script.specs.Form.{nothing};
ghost use Rattle.coda_script.specs.Outcome.{Gives};

use crate::{Line, LineFault, Rights};
use coda_engine::Kind;
use coda_fid::{Bytes, Name, NameFault, Path};
use coda_text::{Cursor, Head, is_quoted, unquote};
use std::alloc::{AllocError, Global};

// The fault at a byte of the line, counted from 0.
fn fault(at: usize, kind: Kind) -> LineFault
    requires { at < 9223372036854775808 }
    ensures { result ≡ LineFault.BadLine (at + 1) kind }
{
    LineFault::BadLine {
        column: at as u64 + 1,
        kind,
    }
}

// The number, where it lies in the range.
fn within(number: Option<u64>, low: u64, high: u64) -> Option<u64>
    ensures value { result ≡ option_and_then (within low high) number }
    ensures bound { IfSome result (λ n. (low ≤ n) × (n ≤ high)) }
{
    match number {
        Some(number) if low <= number && number <= high => Some(number),
        _ => None,
    }
}

/// A number from one to another.
#[tactic(auto, unfolding(crate::specs::Reading::slot_at))]
pub fn number(cursor: &mut Cursor, low: u64, high: u64) -> Result<u64, LineFault>
    ensures gives { Gives (λ n. (n, cursor.new)) result (slot_at kinds.Number (number_in (between low high)) cursor.old) }
    ensures bound { IfOk result (λ n. (low ≤ n) × (n ≤ high)) }
{
    match cursor.head() {
        Head::End { at } => Err(fault(at, Kind::Count)),
        Head::Bad { at } => Err(fault(at, Kind::Text)),
        Head::Word { at, text } => match within(coda_text::number(text), low, high) {
            Some(number) => {
                cursor.advance();
                Ok(number)
            }
            None => Err(fault(at, Kind::Number)),
        },
    }
}

/// A mode, in octal.
#[tactic(auto, unfolding(crate::specs::Reading::slot_at))]
pub fn mode(cursor: &mut Cursor) -> Result<u16, LineFault>
    ensures { Gives (λ m. (m, cursor.new)) result (slot_at kinds.Number (number_in octal) cursor.old) }
{
    match cursor.head() {
        Head::End { at } => Err(fault(at, Kind::Count)),
        Head::Bad { at } => Err(fault(at, Kind::Text)),
        Head::Word { at, text } => match coda_text::octal(text) {
            Some(mode) => {
                cursor.advance();
                Ok(mode)
            }
            None => Err(fault(at, Kind::Number)),
        },
    }
}

// The path that the bytes are, if they are one.
fn path_of(alloc: Global, bytes: &[u8]) -> Result<Option<Path>, AllocError>
    ensures { IfOk result (λ found. found ≡ path_of bytes.now) }
{
    match Path::read(alloc, bytes) {
        Ok(path) => Ok(Some(path)),
        Err(NameFault::BadName) => Ok(None),
        Err(NameFault::Memory) => Err(AllocError),
    }
}

// The path that the word is, if it is one.
fn path_in(alloc: Global, word: &[u8]) -> Result<Option<Path>, AllocError>
    ensures { IfOk result (λ found. found ≡ path_in word.now) }
{
    if !is_quoted(word) {
        return path_of(alloc, word);
    }
    let bytes = unquote(alloc, word)?;
    path_of(alloc, bytes.bytes())
}

/// A path, bare or quoted.
#[tactic(auto, unfolding(crate::specs::Reading::slot_at))]
pub fn path(alloc: Global, cursor: &mut Cursor) -> Result<Path, LineFault>
    ensures { Gives (λ p. (p, cursor.new)) result (slot_at kinds.Path path_in cursor.old) }
{
    match cursor.head() {
        Head::End { at } => Err(fault(at, Kind::Count)),
        Head::Bad { at } => Err(fault(at, Kind::Text)),
        Head::Word { at, text } => match path_in(alloc, text)? {
            Some(path) => {
                cursor.advance();
                Ok(path)
            }
            None => Err(fault(at, Kind::Path)),
        },
    }
}

// The name that the word is, if it is one.
fn name_in(alloc: Global, word: &[u8]) -> Result<Option<Name>, AllocError>
    ensures { IfOk result (λ found. found ≡ name_in word.now) }
{
    let bytes = unquote(alloc, word)?;
    match Name::read(alloc, bytes.bytes()) {
        Ok(name) => Ok(Some(name)),
        Err(NameFault::BadName) => Ok(None),
        Err(NameFault::Memory) => Err(AllocError),
    }
}

/// A name, bare or quoted.
#[tactic(auto, unfolding(crate::specs::Reading::slot_at))]
pub fn name(alloc: Global, cursor: &mut Cursor) -> Result<Name, LineFault>
    ensures { Gives (λ n. (n, cursor.new)) result (slot_at kinds.Path name_in cursor.old) }
{
    match cursor.head() {
        Head::End { at } => Err(fault(at, Kind::Count)),
        Head::Bad { at } => Err(fault(at, Kind::Text)),
        Head::Word { at, text } => {
            let Some(name) = name_in(alloc, text)? else {
                return Err(fault(at, Kind::Path));
            };
            cursor.advance();
            Ok(name)
        }
    }
}

// Whether a word begins with a letter, and what is behind it there.
fn strip(letter: u8, word: &[u8]) -> (bool, &[u8])
    ensures { (result.0, result.1.now) ≡ strip letter word.now }
{
    match word.split_first() {
        Some((byte, rest)) if *byte == letter => (true, rest),
        _ => (false, word),
    }
}

// The rights whose letters a word has.
fn letters_in(word: &[u8]) -> Option<Rights>
    ensures { result ≡ letters_in word.now }
{
    let (read, word) = strip(b'r', word);
    let (lookup, word) = strip(b'l', word);
    let (insert, word) = strip(b'i', word);
    let (delete, word) = strip(b'd', word);
    let (write, word) = strip(b'w', word);
    if !word.is_empty() {
        return None;
    }
    Some(Rights {
        read,
        lookup,
        insert,
        delete,
        write,
    })
}

// The rights that a word is.
fn rights_in(word: &[u8]) -> Option<Rights>
    ensures { result ≡ rights_in word.now }
{
    if word == b"-".as_slice() {
        return Some(Rights {
            read: false,
            lookup: false,
            insert: false,
            delete: false,
            write: false,
        });
    }
    letters_in(word)
}

/// Rights: their letters in order, or `-` for none.
#[tactic(auto, unfolding(crate::specs::Reading::slot_at))]
pub fn rights(cursor: &mut Cursor) -> Result<Rights, LineFault>
    ensures { Gives (λ r. (r, cursor.new)) result (slot_at kinds.Word rights_in cursor.old) }
{
    match cursor.head() {
        Head::End { at } => Err(fault(at, Kind::Count)),
        Head::Bad { at } => Err(fault(at, Kind::Text)),
        Head::Word { at, text } => match rights_in(text) {
            Some(rights) => {
                cursor.advance();
                Ok(rights)
            }
            None => Err(fault(at, Kind::Word)),
        },
    }
}

/// A quoted text of any length.
#[tactic(auto, unfolding(crate::specs::Reading::slot_at))]
pub fn text(alloc: Global, cursor: &mut Cursor) -> Result<Bytes, LineFault>
    ensures { Gives (λ t. (t, cursor.new)) result (slot_at kinds.Text (text_in any) cursor.old) }
{
    match cursor.head() {
        Head::End { at } => Err(fault(at, Kind::Count)),
        Head::Bad { at } => Err(fault(at, Kind::Text)),
        Head::Word { at, text } => {
            if !is_quoted(text) {
                return Err(fault(at, Kind::Text));
            }
            let bytes = unquote(alloc, text)?;
            cursor.advance();
            Ok(bytes)
        }
    }
}

/// A quoted text of so many bytes at least, and so many at most.
#[tactic(auto, unfolding(crate::specs::Reading::slot_at))]
pub fn sized_text(
    alloc: Global,
    cursor: &mut Cursor,
    low: usize,
    high: usize,
) -> Result<Bytes, LineFault>
    ensures { Gives (λ t. (t, cursor.new)) result (slot_at kinds.Text (text_in (sized low high)) cursor.old) }
{
    match cursor.head() {
        Head::End { at } => Err(fault(at, Kind::Count)),
        Head::Bad { at } => Err(fault(at, Kind::Text)),
        Head::Word { at, text } => {
            if !is_quoted(text) {
                return Err(fault(at, Kind::Text));
            }
            let bytes = unquote(alloc, text)?;
            if bytes.len() < low || bytes.len() > high {
                return Err(fault(at, Kind::Text));
            }
            cursor.advance();
            Ok(bytes)
        }
    }
}

// Whether the text is this word. Most texts that are not differ in length or in their first byte.
fn is_word(text: &[u8], word: &[u8]) -> bool
    ensures { result ≡ is_word word.now text.now }
{
    if text.len() != word.len() {
        return false;
    }
    match (text, word) {
        ([first, ..], [wanted, ..]) => *first == *wanted && text == word,
        _ => true,
    }
}

/// Goes past the word, if it comes next.
pub fn takes(cursor: &mut Cursor, word: &[u8]) -> bool
    ensures { (result ≡ is_next (is_word word.now) cursor.old.words) × (cursor.new ≡ (if result then rest_of cursor.old else cursor.old)) }
{
    match cursor.head() {
        Head::End { .. } => false,
        Head::Bad { .. } => false,
        Head::Word { text, .. } => {
            let same = is_word(text, word);
            if same {
                cursor.advance();
            }
            same
        }
    }
}

/// The line is wrong here: some word was wanted.
pub fn wrong(cursor: &Cursor) -> Result<Line, LineFault>
    ensures { Gives (λ l. l) result (read nothing cursor.now) }
{
    match cursor.head() {
        Head::End { at } => Err(fault(at, Kind::Count)),
        Head::Bad { at } => Err(fault(at, Kind::Text)),
        Head::Word { at, .. } => Err(fault(at, Kind::Word)),
    }
}

// The line that was read is dropped, for the fault at a byte, counted from 0. Few lines have one, and dropping a line takes a large frame: it
// is kept out of the way of the others.
#[cold]
#[inline(never)]
fn refuse(at: usize, kind: Kind, _line: Line) -> Result<Line, LineFault>
    requires { at < 9223372036854775808 }
    ensures { result ≡ Err (LineFault.BadLine (at + 1) kind) }
{
    Err(fault(at, kind))
}

/// The line ends here and says that; a further word is a fault of this kind.
pub fn ends(cursor: &Cursor, kind: Kind, line: Line) -> Result<Line, LineFault>
    ensures { Gives (λ l. l) result (end_at kind line cursor.now cursor.now.words) }
{
    match cursor.head() {
        Head::End { .. } => Ok(line),
        Head::Bad { at } => refuse(at, Kind::Text, line),
        Head::Word { at, .. } => refuse(at, kind, line),
    }
}
