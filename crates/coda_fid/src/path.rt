ghost use Rattle.std.specs.Prelude.{◌≡◌, ◌↔◌, IfOk, IsTrue, List, [], ℕ, false, not, nat_le, length};
ghost use Rattle.std.specs.List.{list_all};
ghost use Rattle.coda_fid.specs.Name.{is_name, AreNames};
ghost use Rattle.coda_fid.specs.Path.{path_text, names_in, parts, is_path, IsPath, ArePathNames};

use crate::name::is_good;
use crate::{Name, NameFault};
use std::alloc::{AllocError, Global};
use std::marker::Model;

/// The most bytes that the text of a path has.
const LONGEST_PATH: usize = 1024;

/// A path from the root of a volume: the names that it leads through.
///
/// Its text is `/` alone for the root, and else has each name behind a `/`; it has at most 1,024
/// bytes. Contracts see the list of the names.
#[derive(Debug, Drop)]
pub struct Path {
    items: Vec<Name>,
}

impl Model for Path {
    ghost Value = { List (List ℕ) };

    ghost view = { λ p. p.items.items };

    ghost invariant = { λ p. ArePathNames p.items.items };
}

// Whether each part between the `/` is a name.
fn all_good(bytes: &[u8]) -> bool
    ensures { result ≡ list_all is_name (parts bytes.now) }
{
    bytes.split(|b| *b == b'/').all(is_good)
}

// Whether bytes are too many for the text of a path.
fn is_too_long(bytes: &[u8]) -> bool
    ensures { result ≡ not (nat_le (length bytes.now) 1024) }
{
    bytes.len() > LONGEST_PATH
}

// Whether the bytes are the text of a path.
fn is_path_text(bytes: &[u8]) -> bool
    ensures { result ≡ is_path bytes.now }
{
    if is_too_long(bytes) {
        return false;
    }
    match bytes {
        [] => false,
        [b'/'] => true,
        [first, rest @ ..] => *first == b'/' && all_good(rest),
    }
}

// The parts between the `/`, if they are names: they are read in one pass.
fn read_parts(alloc: Global, bytes: &[u8]) -> Result<Vec<Name>, NameFault>
    ensures parts { IfOk result (λ names. names.items ≡ parts bytes.now) }
    ensures names { IfOk result (λ names. AreNames (parts bytes.now)) }
{
    let mut names = Vec::new(alloc);
    for part in bytes.split(|b| *b == b'/') {
        let name = Name::read(alloc, part)?;
        if names.push(name).is_err() {
            return Err(NameFault::Memory);
        }
    }
    Ok(names)
}

// The names that a text leads through, if it is that of a path.
fn read_names(alloc: Global, bytes: &[u8]) -> Result<Vec<Name>, NameFault>
    ensures names { IfOk result (λ names. names.items ≡ names_in bytes.now) }
    ensures path { IfOk result (λ names. IsTrue (is_path bytes.now)) }
{
    if is_too_long(bytes) {
        return Err(NameFault::BadName);
    }
    match bytes {
        [b'/'] => Ok(Vec::new(alloc)),
        [b'/', rest @ ..] => read_parts(alloc, rest),
        _ => Err(NameFault::BadName),
    }
}

// Why no path was read from bytes.
#[cold]
#[inline(never)]
fn why_not(bytes: &[u8]) -> NameFault
    ensures { (result ≡ NameFault.BadName) ↔ (is_path bytes.now ≡ false) }
{
    if is_path_text(bytes) {
        NameFault::Memory
    } else {
        NameFault::BadName
    }
}

// The same names, in memory of their own.
fn copy_names(alloc: Global, names: &[Name]) -> Result<Vec<Name>, AllocError>
    ensures { IfOk result (λ copies. copies.items ≡ names.now) }
{
    let mut copies = Vec::new(alloc);
    for name in names {
        let copy = name.copy()?;
        copies.push(copy)?;
    }
    Ok(copies)
}

impl Path {
    /// The path that the bytes are the text of.
    ///
    /// # Errors
    ///
    /// `BadName` exactly where they are the text of none; so `Memory` comes for a path alone.
    pub fn read(alloc: Global, bytes: &[u8]) -> Result<Path, NameFault>
        ensures ok { IfOk result (λ p. path_text p ≡ bytes.now) }

        // One text is that of one path.
        ensures alone { IfOk result (λ p. (names : List (List ℕ)) → AreNames names → path_text names ≡ bytes.now → names ≡ p) }
        ensures bad { (result ≡ Err NameFault.BadName) ↔ ¬ IsPath bytes.now }

        // The same by the test and by the names that stand between the bytes `/`.
        ensures names { IfOk result (λ p. p ≡ names_in bytes.now) }
        ensures tested { (result ≡ Err NameFault.BadName) ↔ (is_path bytes.now ≡ false) }
    {
        match read_names(alloc, bytes) {
            Ok(items) => Ok(Path { items }),
            Err(_) => Err(why_not(bytes)),
        }
    }

    /// The names that it leads through, from the root on.
    pub fn names(&self) -> &[Name]
        ensures same { result.now ≡ self.now }
        ensures path { ArePathNames result.now }
    {
        &self.items
    }

    /// The same path, in memory of its own.
    pub fn copy(&self) -> Result<Path, AllocError>
        ensures { IfOk result (λ p. p ≡ self.now) }
    {
        let items = copy_names(*self.items.allocator(), &self.items)?;
        Ok(Path { items })
    }
}
