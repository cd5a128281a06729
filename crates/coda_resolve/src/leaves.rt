// What all replicas hold alike.
ghost use Rattle.std.specs.Prelude.{◌≡◌, option_copied, map, IsTrue};
ghost use Rattle.std.specs.List.{AllByRecursion};
ghost use Rattle.coda_resolve.specs.Settled.{IsEverywhere, is_dir};
ghost use Rattle.coda_resolve.specs.Survey.{HasUpdatesOf, HasNodeOf, IsLeafEverywhere, AreAlike};

use crate::same::{same_node, same_updates};
use coda_reslog::Held;
use coda_tree::NodeKind;

// Whether each copy is there, with the same updates.
fn share_updates(held: &Held, copies: &[Option<&Held>]) -> bool
    ensures { IsTrue result → AllByRecursion (HasUpdatesOf held.now) (map option_copied copies.now) }
{
    match copies {
        [] => true,
        [first, rest @ ..] => match *first {
            Some(own) => same_updates(held, own) && share_updates(held, rest),
            None => false,
        },
    }
}

// Whether each copy is there, with the same node.
fn share_node(held: &Held, copies: &[Option<&Held>]) -> bool
    ensures { IsTrue result → AllByRecursion (HasNodeOf held.now) (map option_copied copies.now) }
{
    match copies {
        [] => true,
        [first, rest @ ..] => match *first {
            Some(own) => same_node(&held.node, &own.node) && share_node(held, rest),
            None => false,
        },
    }
}

// Whether it is a directory.
pub(crate) fn is_dir(kind: &NodeKind) -> bool
    ensures { result ≡ is_dir kind.now }
{
    match kind {
        NodeKind::File(_) => false,
        NodeKind::Link(_) => false,
        NodeKind::Dir(_) => true,
    }
}

// Whether each copy is the same as this. Nodes are compared only where all updates are the same.
pub(crate) fn all_hold(held: &Held, copies: &[Option<&Held>]) -> bool
    ensures { IsTrue result → IsEverywhere held.now (map option_copied copies.now) }
{
    share_updates(held, copies) && share_node(held, copies)
}

// Whether it is a file or link, unmarked, and the copies are the same.
fn is_everywhere(held: &Held, copies: &[Option<&Held>]) -> bool
    ensures { IsTrue result → IsLeafEverywhere held.now (map option_copied copies.now) }
{
    !is_dir(&held.node.kind) && !held.node.marked && all_hold(held, copies)
}

// Whether the copies are those of a file or link that all replicas hold alike, unmarked. Where it isn't so, nothing is said.
pub(crate) fn are_alike(copies: &[Option<&Held>]) -> bool
    ensures { IsTrue result → AreAlike (map option_copied copies.now) }
{
    match copies {
        [] => false,
        [first, rest @ ..] => match *first {
            Some(held) => is_everywhere(held, rest),
            None => false,
        },
    }
}
