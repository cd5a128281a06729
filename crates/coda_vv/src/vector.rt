ghost use Rattle.std.specs.Prelude.{◌≡◌, ◌≤◌, ◌<◌, ◌^◌};
ghost use Rattle.coda_vv.specs.Vector.{comparison, compared, joined, bumped, count};

use coda_lanes::{compare8, max8};

/// How many updates of each server are in a version of an object.
///
/// The count of server `s`, from 1 to 8, stands at index `s - 1`. A server numbers its updates of an object from 1, so
/// a vector stands for a set of updates: those numbered from 1 to its count, of each server (Satyanarayanan and others
/// 1990; Kumar and Satyanarayanan 1993).
#[derive(Clone, Copy, Debug, PartialEq, Eq)]
pub struct Vv(pub [u64; 8]);

/// How the updates in two versions compare.
#[derive(Clone, Copy, Debug, PartialEq, Eq)]
pub enum Compare {
    /// Both have the same updates.
    Equal,
    /// The first has all of the second, and more.
    Dominates,
    /// The second has all of the first, and more.
    Submits,
    /// Each has an update that the other lacks.
    Inconsistent,
}

// How two versions compare, from whether each includes the other.
fn compared(first: bool, second: bool) -> Compare
    ensures { result ≡ compared first second }
{
    match (first, second) {
        (true, true) => Compare::Equal,
        (true, false) => Compare::Dominates,
        (false, true) => Compare::Submits,
        (false, false) => Compare::Inconsistent,
    }
}

impl Vv {
    /// How the updates of this version and of the other compare.
    pub fn compare(&self, other: &Vv) -> Compare
        ensures { result ≡ comparison self.now.0 other.now.0 }
    {
        let masks = compare8(&self.0, &other.0);
        compared(masks.less == 0, masks.greater == 0)
    }

    /// The updates of both versions: of each server the greater count.
    pub fn merge(&self, other: &Vv) -> Vv
        ensures { result.0 ≡ joined self.now.0 other.now.0 }
    {
        Vv(max8(&self.0, &other.0))
    }

    /// This version with one more update of the server.
    ///
    /// The server is one from 1 to 8, of which fewer than 2^63 updates are in the version.
    pub fn bump(&self, server: u8) -> Vv
        requires from_one { 1 ≤ server }
        requires to_eight { server ≤ 8 }
        requires room { count self.now.0 server < 2 ^ 63 }
        ensures { result.0 ≡ bumped self.now.0 server }
    {
        let mut counts = self.0;
        let place = usize::from(server) - 1;
        counts[place] += 1;
        Vv(counts)
    }
}

#[cfg(test)]
mod tests {
    use super::*;
    use std::test::Fail;

    // Two versions part, and their merge dominates both.
    #[test]
    fn versions_part_and_are_merged(rt: HostRuntime) -> Result<(), Fail> {
        let made = Vv([0; 8]).bump(1).bump(8);
        let (first, second) = (made.bump(1), made.bump(2).bump(2));
        let rows = [
            (made, made, Compare::Equal),
            (first, made, Compare::Dominates),
            (made, second, Compare::Submits),
            (first, second, Compare::Inconsistent),
            (first.merge(&second), first, Compare::Dominates),
            (second, second.merge(&first), Compare::Submits),
        ];
        for (one, other, how) in rows {
            assert_eq!(rt; one.compare(&other), how);
        }
        assert_eq!(rt; first.merge(&second).0, [2, 2, 0, 0, 0, 0, 0, 1]);
        Ok(())
    }
}
