ghost use Rattle.std.specs.Prelude.{◌≡◌, ◌<◌, nat_lt, max};
ghost use Rattle.coda_lanes.specs.Lanes.{each, mask_of};

use std::simd::prelude::*;

/// Which of eight numbers are less than those at the same places in another eight, and which are greater.
///
/// Bit `i` stands for the numbers at place `i`, from 0.
#[derive(Clone, Copy, Debug, PartialEq, Eq)]
pub struct Masks {
    /// Where the first number is less.
    pub less: u8,
    /// Where the first number is greater.
    pub greater: u8,
}

// The bits of a mask of eight lanes.
fn eight_bits(mask: u64) -> u8
    requires { mask < 256 }
    ensures { result ≡ mask }
{
    mask as u8
}

fn less_mask(a: &[u64; 8], b: &[u64; 8]) -> u8
    ensures { result ≡ mask_of (each nat_lt a.now b.now) }
{
    let lanes = u64x8::from_array(*a).simd_lt(u64x8::from_array(*b));
    eight_bits(lanes.to_bitmask())
}

/// Which of the eight numbers are less than, or greater than, those of `b` at their places.
pub fn compare8(a: &[u64; 8], b: &[u64; 8]) -> Masks
    ensures less { result.less ≡ mask_of (each nat_lt a.now b.now) }
    ensures greater { result.greater ≡ mask_of (each nat_lt b.now a.now) }
{
    Masks {
        less: less_mask(a, b),
        greater: less_mask(b, a),
    }
}

/// At each place the greater of the two numbers.
pub fn max8(a: &[u64; 8], b: &[u64; 8]) -> [u64; 8]
    ensures { result ≡ each max a.now b.now }
{
    u64x8::from_array(*a)
        .simd_max(u64x8::from_array(*b))
        .to_array()
}

#[cfg(test)]
mod tests {
    use super::*;
    use std::test::Fail;

    #[test]
    fn eight_counts_are_compared(rt: HostRuntime) -> Result<(), Fail> {
        let first = [0, 7, u64::MAX, 5, 0, 1 << 63, 3, 4];
        let second = [1, 7, 0, 6, 0, 1, 3, 5];
        let masks = compare8(&first, &second);
        assert_eq!(rt; masks.less, 0b1000_1001);
        assert_eq!(rt; masks.greater, 0b0010_0100);
        assert_eq!(rt;
            max8(&first, &second),
            [1, 7, u64::MAX, 6, 0, 1 << 63, 3, 5]
        );
        Ok(())
    }
}
