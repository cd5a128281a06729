// What a replica binds.
ghost use Rattle.std.specs.Prelude.{◌≡◌, true};
ghost use Rattle.std.specs.FinMap.{is_sorted};
ghost use Rattle.coda_fid.specs.Fid.{fid_cmp};
ghost use Rattle.coda_resolve.specs.Resolution.{child_in};
ghost use Rattle.coda_resolve.specs.Views.{objects_of};

use coda_fid::{Fid, Name};
use coda_record::View;
use coda_resolve::held_in;
use coda_tree::NodeKind;

// What the replica binds in a directory at a name.
pub(crate) fn child_in(view: &View, dir: Fid, name: &Name) -> Option<Fid>
    requires { is_sorted fid_cmp view.now.held ≡ true }
    ensures { result ≡ child_in (objects_of view.now) dir name.now }
{
    let Some(held) = held_in(view.held.objects(), dir) else {
        return None;
    };
    match &held.node.kind {
        NodeKind::Dir(entries) => entries.find(name),
        NodeKind::File(_) => None,
        NodeKind::Link(_) => None,
    }
}
