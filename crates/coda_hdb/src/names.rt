ghost use Rattle.std.specs.Prelude.{◌≡◌, nat_eq};
ghost use Rattle.std.specs.Cmp.Lexicographic.{pointwise};
ghost use Rattle.std.specs.Map.{values_of};
ghost use Rattle.coda_hdb.specs.Database.{is_at, has_place};

use crate::HdbEntry;
use coda_fid::{Name, Path};
use indexmap::IndexMap;

// Whether two paths lead through the same names.
fn are_same(left: &[Name], right: &[Name]) -> bool
    ensures { result ≡ pointwise (pointwise nat_eq) left.now right.now }
{
    let (mut left, mut right) = (left, right);
    loop {
        match (left, right) {
            ([], []) => return true,
            ([], [_, ..]) => return false,
            ([_, ..], []) => return false,
            ([a, left_rest @ ..], [b, right_rest @ ..]) => {
                if a.bytes() != b.bytes() {
                    return false;
                }
                left = left_rest;
                right = right_rest;
            }
        }
    }
}

// Whether an entry is that of a path in a volume.
fn is_of(entry: &HdbEntry, volume: u32, path: &Path) -> bool
    ensures { result ≡ is_at volume path.now entry.now }
{
    volume == entry.volume && are_same(path.names(), entry.path.names())
}

// Whether a path in a volume has an entry. Each is looked at in turn, which takes no memory.
pub(crate) fn has_entry(
    entries: &IndexMap<(u32, Vec<u8>), HdbEntry>,
    volume: u32,
    path: &Path,
) -> bool
    ensures { result ≡ has_place (values_of entries.now.entries) volume path.now }
{
    for entry in entries.values() {
        if is_of(entry, volume, path) {
            return true;
        }
    }
    false
}
