ghost use Rattle.std.specs.Prelude.{◌≡◌, ◌≤◌, ◌+◌, ◌↔◌, IsTrue, length};
ghost use Rattle.coda_lanes.specs.Lanes.{part};

use std::simd::prelude::*;

// How many bytes are compared at a time.
const LANES: usize = 32;

// Whether the 32 bytes from a place on are the same.
fn same_part(a: &[u8], b: &[u8], at: usize) -> bool
    requires first { at + 32 ≤ length a.now }
    requires second { at + 32 ≤ length b.now }
    ensures { IsTrue result ↔ (part at 32 a.now ≡ part at 32 b.now) }
{
    let first = u8x32::from_slice(&a[at..]);
    let second = u8x32::from_slice(&b[at..]);
    first.simd_ne(second).to_bitmask() == 0
}

// Whether two runs of bytes are the same, one byte after the other.
fn same_short(a: &[u8], b: &[u8]) -> bool
    ensures { IsTrue result ↔ (a.now ≡ b.now) }
{
    a == b
}

/// Whether two runs of bytes are the same.
pub fn same_bytes(a: &[u8], b: &[u8]) -> bool
    ensures { IsTrue result ↔ (a.now ≡ b.now) }
{
    if a.len() != b.len() {
        return false;
    }
    let mut at = 0;
    while a.len() - at >= LANES {
        if !same_part(a, b, at) {
            return false;
        }
        at += LANES;
    }
    same_short(&a[at..], &b[at..])
}

#[cfg(test)]
mod tests {
    use super::*;
    use std::test::Fail;

    // Lengths about that of a vector, with a difference at the first byte, at the last and at none.
    #[test]
    fn bytes_of_each_length_are_compared(rt: HostRuntime) -> Result<(), Fail> {
        for length in [0, 1, 31, 32, 33, 1000] {
            let plain = vec![in rt.alloc(); 7u8; length]?;
            assert!(rt; same_bytes(&plain, &plain));
            for place in [0, length.saturating_sub(1)] {
                let mut other = vec![in rt.alloc(); 7u8; length]?;
                if let Some(byte) = other.get_mut(place) {
                    *byte = 135;
                    assert!(rt; !same_bytes(&plain, &other));
                    assert!(rt; !same_bytes(&plain, &other[..place]));
                }
            }
        }
        Ok(())
    }
}
