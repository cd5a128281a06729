// How fids are hashed.
ghost use Rattle.std.specs.Prelude.{◌≡◌};
ghost use Rattle.coda_tree.specs.Hashed.{number_of};

use coda_fid::Fid;
use std::collections::HashMap;
use std::hash::{BuildHasherDefault, Hasher};

// An odd number near 2^64 divided by the golden ratio.
const MULTIPLIER: u64 = 0x9e37_79b9_7f4a_7c15;

/// Hashes fids for tables of them.
///
/// Four fids that a client gives out one after the other get into one group of a table, and the groups are spread: so
/// what a client made last is looked up where a table was read just before. Whoever gives out fids can make them
/// collide, since there is no secret.
///
/// Each number of a fid is a write of four bytes; a write of any other length counts as 0.
#[derive(Clone, Copy)]
pub struct FidHasher {
    // The numbers before the last, mixed.
    before: u64,
    // The last number.
    last: u32,
}

// Four bytes as a number, the lowest first.
#[inline(always)]
fn number_of(bytes: &[u8]) -> u32
    ensures { result ≡ number_of bytes.now }
{
    if bytes.len() != 4 {
        return 0;
    }
    u32::from_le_bytes([bytes[0], bytes[1], bytes[2], bytes[3]])
}

/// What makes the hashers of a table of fids.
pub type FidHash = BuildHasherDefault<FidHasher>;

/// A table under fids.
pub type FidMap<V> = HashMap<Fid, V, FidHash>;

impl Default for FidHasher {
    ghost use Rattle.coda_tree.specs.Hashed.{no_numbers};

    ghost is_default = { λ h. h ≡ no_numbers };

    fn default() -> FidHasher {
        FidHasher { before: 0, last: 0 }
    }
}

impl Hasher for FidHasher {
    ghost use Rattle.coda_tree.specs.Hashed.{hash_of, with_number};

    ghost write = { with_number };

    ghost finish = { hash_of };

    #[inline(always)]
    fn finish(&self) -> u64 {
        let block = self.before ^ u64::from(self.last >> 2);
        (block.wrapping_mul(MULTIPLIER) >> 32) ^ u64::from(self.last & 3) << 24
    }

    #[inline(always)]
    fn write(&mut self, bytes: &[u8]) {
        self.before = (self.before ^ u64::from(self.last)).wrapping_mul(MULTIPLIER);
        self.last = number_of(bytes);
    }
}
