// What the replicas hold of one object, the lowest server first.
ghost use Rattle.std.specs.Prelude.{◌≡◌, option_copied, map, not};
ghost use Rattle.std.specs.List.{list_any};
ghost use Rattle.coda_resolve.specs.Copies.{vector_of, is_marked, first_some};
ghost use Rattle.coda_resolve.specs.Missing.{knows, has_update};

use coda_reslog::{Held, ResEntry};
use coda_vv::Vv;

// Whether the server's update of that number is in the copy.
pub(crate) fn knows(copy: Option<&Held>, origin: u8, seq: u64) -> bool
    ensures { result ≡ knows (option_copied copy.entry) origin seq }
{
    let Some(held) = copy else {
        return seq == 0;
    };
    let place = usize::from(origin).saturating_sub(1);
    match held.vector.0.get(place) {
        Some(count) => seq <= *count,
        None => seq == 0,
    }
}

// Whether the update is in the copy.
pub(crate) fn has_update(copy: Option<&Held>, update: &ResEntry) -> bool
    ensures { result ≡ has_update update.now (option_copied copy.entry) }
{
    knows(copy, update.origin, update.seq)
}

// Whether some copy has the update.
pub(crate) fn some_has(copies: &[Option<&Held>], update: &ResEntry) -> bool
    ensures { result ≡ list_any (has_update update.now) (map option_copied copies.now) }
{
    match copies {
        [] => false,
        [first, rest @ ..] => has_update(*first, update) || some_has(rest, update),
    }
}

// Whether some copy lacks the update.
pub(crate) fn some_lacks(copies: &[Option<&Held>], update: &ResEntry) -> bool
    ensures { result ≡ list_any (λ copy. not (has_update update.now copy)) (map option_copied copies.now) }
{
    match copies {
        [] => false,
        [first, rest @ ..] => !has_update(*first, update) || some_lacks(rest, update),
    }
}

// Whether the copy is marked.
pub(crate) fn is_marked(copy: Option<&Held>) -> bool
    ensures { result ≡ is_marked (option_copied copy.entry) }
{
    match copy {
        Some(held) => held.node.marked,
        None => false,
    }
}

// Whether some copy is marked.
pub(crate) fn some_marked(copies: &[Option<&Held>]) -> bool
    ensures { result ≡ list_any is_marked (map option_copied copies.now) }
{
    match copies {
        [] => false,
        [first, rest @ ..] => is_marked(*first) || some_marked(rest),
    }
}

// The lowest copy that is there.
pub(crate) fn lowest<'a>(copies: &[Option<&'a Held>]) -> Option<&'a Held>
    ensures { option_copied result ≡ first_some (map option_copied copies.now) }
{
    match copies {
        [] => None,
        [first, rest @ ..] => {
            let copy = *first;
            match copy {
                Some(held) => Some(held),
                None => lowest(rest),
            }
        }
    }
}

// The updates that are in the copy.
pub(crate) fn vector_of(copy: Option<&Held>) -> Vv
    ensures { result.0 ≡ vector_of (option_copied copy.entry) }
{
    match copy {
        Some(held) => held.vector,
        None => Vv([0; 8]),
    }
}
