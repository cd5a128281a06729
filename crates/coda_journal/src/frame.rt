// An entry as it is written.
ghost use Rattle.std.specs.Prelude.{◌≡◌, ℕ, ◌+◌, ◌++◌, ◌∷◌, [], ◌%◌, ◌^◌, length, List, IfOk, ◌≤◌, vec_len, drop};
ghost use Rattle.std.specs.Int.{w32};
ghost use Rattle.coda_journal.specs.Entries.{framed};

use std::alloc::{AllocError, Global};

/// An entry as it is written: a gate 1, the length of the payload, the payload, and a closed gate behind it.
#[derive(Drop)]
pub struct Frame {
    pub bytes: Vec<u8>,

    ghost gates: { 6 ≤ vec_len bytes },
}

impl Frame {
    /// The entry of a payload. A length is written modulo 2^32; no area has room for a payload that is longer.
    ///
    /// # Errors
    ///
    /// `AllocError` where there was no memory for it.
    pub fn new(alloc: Global, payload: &[u8]) -> Result<Frame, AllocError>
        ensures { IfOk result (λ f. f.bytes.items ≡ framed w32 payload.now) }
    {
        let mut bytes = Vec::with_capacity(alloc, payload.len() + 6)?;
        bytes.push(1)?;
        bytes.extend_from_slice(&((payload.len() as u64 % 0x1_0000_0000) as u32).to_be_bytes())?;
        bytes.extend_from_slice(payload)?;
        bytes.push(0)?;
        Ok(Frame { bytes })
    }

    /// All but the first gate.
    pub fn behind(&self) -> &[u8]
        ensures rest { result.now ≡ drop 1 self.now.bytes.items }
        ensures count { length result.now + 1 ≡ vec_len self.now.bytes }
    {
        &self.bytes[1..]
    }
}
