ghost use Rattle.std.specs.Prelude.{◌≡◌, length, IfOk, suc};
ghost use Rattle.coda_values.specs.Form.{one};
ghost use Rattle.coda_values.specs.Parts.{u8 as a_u8, u16 as a_u16, u32 as a_u32, u64 as a_u64};
ghost use Rattle.coda_values.specs.Reading.{bytes_at, number_at, read};
ghost use Rattle.coda_values.specs.Outcome.{Gives};

use crate::fault::Fault;
use std::marker::Model;

/// What is left of some bytes, field after field.
///
/// Contracts see the bytes that are left.
#[derive(Drop)]
pub struct Cursor<'a> {
    rest: &'a [u8],
}

/// A byte that tells which form stands behind it.
#[derive(Clone, Copy)]
pub struct Tag {
    /// The byte.
    pub byte: u8,
    /// How many bytes are left, it and those behind it.
    pub left: usize,
}

impl<'a> Model for Cursor<'a> {
    ghost use Rattle.std.specs.Prelude.{List, ℕ};

    ghost Value = { List ℕ };

    ghost view = { λ c. c.rest.now };
}

impl Tag {
    /// The fault where nothing is told by it.
    pub fn unknown(self) -> Fault
        ensures { result ≡ Fault.Broken self.left }
    {
        Fault::Broken { left: self.left }
    }
}

impl<'a> Cursor<'a> {
    /// At the front of some bytes.
    pub fn of(bytes: &'a [u8]) -> Self
        ensures { result ≡ bytes.now }
    {
        Cursor { rest: bytes }
    }

    /// How many bytes are left.
    pub fn left(&self) -> usize
        ensures { result ≡ length self.now }
    {
        self.rest.len()
    }

    /// The next so many bytes.
    pub fn take(&mut self, count: usize) -> Result<&'a [u8], Fault>
        ensures { Gives (λ b. (b.now, self.new)) result (bytes_at count self.old) }
    {
        if self.rest.len() < count {
            return Err(Fault::Broken { left: 0 });
        }
        let (front, rest) = self.rest.split_at(count);
        self.rest = rest;
        Ok(front)
    }

    /// A number of one byte.
    #[tactic(auto, unfolding(crate::specs::Reading::number_at))]
    pub fn u8(&mut self) -> Result<u8, Fault>
        ensures { Gives (λ n. (n, self.new)) result (read a_u8.form self.old) }
    {
        let bytes = self.take(1)?;
        Ok(u8::from_be_bytes([bytes[0]]))
    }

    /// A number of two bytes.
    #[tactic(auto, unfolding(crate::specs::Reading::number_at))]
    pub fn u16(&mut self) -> Result<u16, Fault>
        ensures { Gives (λ n. (n, self.new)) result (read a_u16.form self.old) }
    {
        let bytes = self.take(2)?;
        Ok(u16::from_be_bytes([bytes[0], bytes[1]]))
    }

    /// A number of four bytes.
    #[tactic(auto, unfolding(crate::specs::Reading::number_at))]
    pub fn u32(&mut self) -> Result<u32, Fault>
        ensures { Gives (λ n. (n, self.new)) result (read a_u32.form self.old) }
    {
        let bytes = self.take(4)?;
        Ok(u32::from_be_bytes([bytes[0], bytes[1], bytes[2], bytes[3]]))
    }

    /// A number of eight bytes.
    #[tactic(auto, unfolding(crate::specs::Reading::number_at))]
    pub fn u64(&mut self) -> Result<u64, Fault>
        ensures { Gives (λ n. (n, self.new)) result (read a_u64.form self.old) }
    {
        let bytes = self.take(8)?;
        Ok(u64::from_be_bytes([
            bytes[0], bytes[1], bytes[2], bytes[3], bytes[4], bytes[5], bytes[6], bytes[7],
        ]))
    }

    /// A tag.
    #[tactic(auto, using(crate::proofs::Laws::tag_length))]
    pub fn tag(&mut self) -> Result<Tag, Fault>
        ensures gives { Gives (λ t. (t.byte, self.new)) result (number_at one self.old) }
        ensures place { IfOk result (λ t. t.left ≡ suc (length self.new)) }
    {
        let left = self.left();
        let byte = self.u8()?;
        Ok(Tag { byte, left })
    }
}
