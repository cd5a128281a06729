// What the first 64 bytes of a disk say to the one who asks for a header.
ghost use Rattle.std.specs.Prelude.{◌≡◌, ◌≢◌, ◌⊎◌, ℕ, ◌+◌, ◌-◌, ◌*◌, ◌^◌, ◌<◌, ◌≤◌, List, length, take, get_or, Err, Ok, None, Some, IfOk, IfSome, vec_len};
ghost use Rattle.coda_journal.specs.Header.{marks, area_bytes};
ghost use Rattle.coda_journal.specs.Heading.{IsHeading, DiffersFirst};
ghost use Rattle.coda_journal.specs.declared.header.Header.{Header as AskedHeader};

/// What the first 64 bytes say.
#[derive(Clone, Copy, Debug, PartialEq, Eq)]
pub enum Heading {
    /// The disk isn't made.
    Unmade,
    /// The first byte that differs.
    Other(u64),
    /// Where the area begins that the selector names.
    Area(u64),
}

// The first place where two lists of one length differ.
fn first_difference(found: &[u8], asked: &[u8]) -> Option<usize>
    requires { length found.now ≡ length asked.now }
    ensures same { result ≡ None → found.now ≡ asked.now }
    ensures other { IfSome result (DiffersFirst found.now asked.now) }
{
    for place in 0..found.len() {
        if found[place] != asked[place] {
            return Some(place);
        }
    }
    None
}

// Reads as many of the first 64 bytes as there are. `asked` is bytes 2 to 63 of the asked header.
pub(crate) fn read_heading(first: &[u8], asked: &[u8], area: u64) -> Heading
    requires size { length asked.now ≡ 62 }
    requires area { area ≤ 2 ^ 26 }
    ensures says { (header : AskedHeader) (image : List ℕ) → first.now ≡ take 64 image → asked.now ≡ marks header → area ≡ area_bytes header
        → IsHeading header image result }
    ensures start { (start : ℕ) → result ≡ Heading.Area start → start ≤ 64 + area }
{
    if first.len() < 64 || first[0] != 1 {
        return Heading::Unmade;
    }
    match first_difference(&first[2..64], asked) {
        Some(place) => Heading::Other(2 + place as u64),
        None => Heading::Area(64 + (first[1] % 2) as u64 * area),
    }
}
