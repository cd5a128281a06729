//! The letters that wait, by their numbers and in their order.
ghost use Rattle.std.specs.Prelude.{◌≡◌, ◌≤◌, ◌++◌, ◌∷◌, [], true, Some, None, length, OnOk, OnErr, IfErr};
ghost use Rattle.std.specs.Map.{values_of};
ghost use Rattle.coda_net.specs.Pool.{are_within, cut_to, found, is_sent as is_sent_so, letter_at, lossy_bytes, lost_for as lost_for_so, lossy_count, must_go as must_go_so, not_trimmed, oldest_place, trimmed, without_oldest, without_oldest_of};

use crate::{Letter, NetFault};
use coda_fid::Bytes;
use indexmap::IndexMap;
use std::alloc::Global;
use std::mem;

// The limits of letters that may be lost.
const LETTERS: usize = 1_024;

const BYTES: usize = 67_108_864;

// How many letters may be lost.
fn count_lossy(letters: &IndexMap<u64, Letter>) -> usize
    requires { lossy_count (values_of letters.now.entries) ≤ 1024 }
    ensures { result ≡ lossy_count (values_of letters.now.entries) }
{
    let mut count = 0;
    for letter in letters.values() {
        if letter.lossy {
            count += 1;
        }
    }
    count
}

// How many bytes they have.
fn weigh_lossy(letters: &IndexMap<u64, Letter>) -> usize
    requires { lossy_bytes (values_of letters.now.entries) ≤ 67108864 }
    ensures { result ≡ lossy_bytes (values_of letters.now.entries) }
{
    let mut bytes = 0;
    for letter in letters.values() {
        if letter.lossy {
            bytes += letter.bytes.len();
        }
    }
    bytes
}

// How many of the oldest letters have to go, so that the rest is within the limits with one more of so many bytes.
fn must_go(letters: &IndexMap<u64, Letter>, bytes: usize) -> usize
    requires within { are_within (lossy_count (values_of letters.now.entries)) (lossy_bytes (values_of letters.now.entries)) ≡ true }
    requires small { bytes ≤ 67108864 }
    ensures { result ≡ must_go_so 1 bytes (values_of letters.now.entries) }
{
    let mut count = 1 + count_lossy(letters);
    let mut weight = bytes + weigh_lossy(letters);
    let mut lost = 0;
    for letter in letters.values() {
        if count <= LETTERS && weight <= BYTES {
            return lost;
        }
        if letter.lossy {
            count -= 1;
            weight -= letter.bytes.len();
            lost += 1;
        }
    }
    lost
}

/// How many of the oldest letters have to go for a new one.
pub(crate) fn lost_for(letters: &IndexMap<u64, Letter>, letter: &Letter) -> usize
    requires within { are_within (lossy_count (values_of letters.now.entries)) (lossy_bytes (values_of letters.now.entries)) ≡ true }
    requires small { letter.now.lossy ≡ true → length letter.now.bytes ≤ 67108864 }
    ensures { result ≡ lost_for_so letter.now letters.now.entries }
{
    if letter.lossy {
        must_go(letters, letter.bytes.len())
    } else {
        0
    }
}

// The place of the oldest letter that may be lost, or how many letters there are.
fn oldest(letters: &IndexMap<u64, Letter>) -> usize
    ensures { result ≡ oldest_place (values_of letters.now.entries) }
{
    let mut place = 0;
    for letter in letters.values() {
        if letter.lossy {
            return place;
        }
        place += 1;
    }
    place
}

// Takes the oldest letter out that may be lost.
fn lose_oldest(letters: &mut IndexMap<u64, Letter>)
    ensures { letters.new.entries ≡ without_oldest letters.old.entries }
{
    let place = oldest(letters);
    letters.shift_remove_index(place);
}

/// Takes so many of the oldest letters out that may be lost.
pub(crate) fn lose_oldest_of(letters: &mut IndexMap<u64, Letter>, count: usize)
    ensures { letters.new.entries ≡ without_oldest_of count letters.old.entries }
{
    for _ in 0..count {
        lose_oldest(letters);
    }
}

/// Puts a letter behind all others.
pub(crate) fn put(
    letters: &mut IndexMap<u64, Letter>,
    number: u64,
    letter: Letter,
) -> Result<(), NetFault>
    requires { letter_at letters.old.entries number ≡ None }
    ensures ok { OnOk result (letters.new.entries ≡ letters.old.entries ++ (number, letter) ∷ []) }
    ensures err { OnErr result (letters.new.entries ≡ letters.old.entries) }
    ensures why { IfErr result (λ why. why ≡ NetFault.Memory) }
{
    letters.insert(number, letter)?;
    Ok(())
}

// Whether a letter goes from the client to the server with these bytes; they are compared last, and their lengths
// before them.
fn is_sent(letter: &Letter, client: u8, server: u8, bytes: &[u8]) -> bool
    ensures { result ≡ is_sent_so client server bytes.now letter.now }
{
    letter.to_server
        && client == letter.client
        && server == letter.server
        && letter.bytes.bytes() == bytes
}

/// The number of the first letter from the client to the server with these bytes.
pub(crate) fn find(
    letters: &IndexMap<u64, Letter>,
    client: u8,
    server: u8,
    bytes: &[u8],
) -> Option<u64>
    ensures { result ≡ found letters.now.entries client server bytes.now }
{
    for (number, letter) in letters.iter() {
        if is_sent(letter, client, server, bytes) {
            return Some(*number);
        }
    }
    None
}

/// Whether the letter of a number can be trimmed to so many bytes.
///
/// # Errors
///
/// `NoMessage` where none is there, and `NotShorter` where it has no more bytes.
pub(crate) fn may_trim(
    letters: &IndexMap<u64, Letter>,
    number: u64,
    most: u64,
) -> Result<(), NetFault>
    ensures ok { OnOk result (not_trimmed number most (letter_at letters.now.entries number) ≡ None) }
    ensures err { IfErr result (λ why. not_trimmed number most (letter_at letters.now.entries number) ≡ Some why) }
{
    match letters.get(&number) {
        None => Err(NetFault::NoMessage(number)),
        Some(letter) => {
            let length = letter.bytes.len() as u64;
            if most < length {
                return Ok(());
            }
            Err(NetFault::NotShorter(length))
        }
    }
}

// Leaves a letter its first bytes alone. It takes no memory.
fn cut(alloc: Global, letter: &mut Letter, most: u64)
    ensures { letter.new ≡ cut_to most letter.old }
{
    let bytes = mem::replace(&mut letter.bytes, Bytes::from_vec(Vec::new(alloc)));
    let mut items = bytes.into_vec();
    items.truncate(most as usize);
    letter.bytes = Bytes::from_vec(items);
}

/// Leaves the letter of a number its first bytes alone. It takes no memory.
pub(crate) fn trim(alloc: Global, letters: &mut IndexMap<u64, Letter>, number: u64, most: u64)
    ensures { letters.new.entries ≡ trimmed letters.old.entries number most }
{
    if let Some(letter) = letters.get_mut(&number) {
        cut(alloc, letter, most);
    }
}
