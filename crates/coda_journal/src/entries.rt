// The reading of entries.
ghost use Rattle.std.specs.Prelude.{◌≡◌, ◌≢◌, ◌⊎◌, ℕ, ◌+◌, ◌-◌, ◌^◌, ◌<◌, ◌≤◌, List, [], ◌∷◌, ◌++◌, length, take, drop, Ok, None, true, false, IfSome, OnOk};
ghost use Rattle.std.specs.Int.{w32};
ghost use Rattle.coda_journal.specs.Lengths.{length_in};
ghost use Rattle.coda_journal.specs.Entries.{body, Holds, IsBroken};
ghost use Rattle.coda_journal.specs.Reading.{IsReadTo};

use coda_fid::Bytes;
use std::alloc::{AllocError, Global};

/// The entries from the start of an area on, and how many bytes of it they take up.
#[derive(Drop)]
pub struct Entries {
    pub payloads: Vec<Bytes>,
    pub used: usize,
}

// How many bytes the length of a payload has.
const LENGTH: usize = 4;

// The length that stands first.
fn length_at(bytes: &[u8]) -> Option<usize>
    ensures found { IfSome result (λ n. (4 ≤ length bytes.now) × (n ≡ length_in w32 bytes.now)) }
    ensures none { (result ≡ None) → (length bytes.now < 4) }
{
    let first = bytes.first_chunk::<4>()?;
    Some(u32::from_be_bytes(*first) as usize)
}

// The payload whose length stands first.
fn payload_at(bytes: &[u8]) -> Option<&[u8]>
    ensures found { IfSome result (λ payload. bytes.now ≡ body w32 payload.now ++ drop (4 + length payload.now) bytes.now) }
    ensures inside { IfSome result (λ payload. 4 + length payload.now ≤ length bytes.now) }
    ensures past { (result ≡ None) → (length bytes.now < 4 + length_in w32 bytes.now) }
{
    let count = length_at(bytes)?;
    if count > bytes.len() - LENGTH {
        return None;
    }
    Some(&bytes[LENGTH..LENGTH + count])
}

// Reads on in the bytes of an area that were read so far, as long as entries are whole. Is the gate behind them closed?
pub(crate) fn read_on(
    alloc: Global,
    bytes: &[u8],
    entries: &mut Entries,
) -> Result<bool, AllocError>
    requires { IsReadTo w32 bytes.now entries.old.used entries.old.payloads.items }
    ensures so_far { OnOk result (IsReadTo w32 bytes.now entries.new.used entries.new.payloads.items) }
    ensures closed { result ≡ Ok true → Holds w32 bytes.now entries.new.payloads.items × (entries.new.used < length bytes.now) }
    ensures broken { result ≡ Ok false → IsBroken w32 bytes.now entries.new.used }
{
    while entries.used < bytes.len() {
        if bytes[entries.used] != 1 {
            return Ok(true);
        }
        let Some(payload) = payload_at(&bytes[entries.used + 1..]) else {
            return Ok(false);
        };
        let payload = Bytes::of(alloc, payload)?;
        let length = payload.len();
        if entries.payloads.push(payload).is_err() {
            return Err(AllocError);
        }
        entries.used += 1 + LENGTH + length;
    }
    Ok(false)
}
