ghost use Rattle.std.specs.Prelude.{◌≡◌, IfOk};
ghost use Rattle.coda_certify.specs.Replay.{made, empty_file, empty_dir, new_link, sid_of};

use coda_fid::{Bytes, Record, Sid};
use coda_tree::{Entries, Node, NodeKind};
use std::alloc::{AllocError, Global};

// The name of a client's operation.
pub(crate) fn sid_for(client: u8, rec: &Record) -> Sid
    ensures { result ≡ sid_of client rec.now }
{
    Sid {
        client,
        number: rec.number,
    }
}

// A node that is not marked.
fn make(kind: NodeKind, mode: u16, owner: u32, mtime: u64, sid: Sid) -> Node
    ensures { result ≡ made kind mode owner mtime sid }
{
    Node {
        kind,
        mode,
        owner,
        mtime,
        sid,
        marked: false,
    }
}

// An empty file. Fails for want of memory alone.
pub(crate) fn new_file(
    alloc: Global,
    mode: u16,
    owner: u32,
    mtime: u64,
    sid: Sid,
) -> Result<Node, AllocError>
    ensures { IfOk result (λ node. node ≡ empty_file mode owner mtime sid) }
{
    let content = Bytes::of(alloc, &[])?;
    Ok(make(NodeKind::File(content), mode, owner, mtime, sid))
}

// An empty directory.
pub(crate) fn new_dir(alloc: Global, mode: u16, owner: u32, mtime: u64, sid: Sid) -> Node
    ensures { result ≡ empty_dir mode owner mtime sid }
{
    make(NodeKind::Dir(Entries::new(alloc)), mode, owner, mtime, sid)
}

// A symbolic link. Fails for want of memory alone.
pub(crate) fn make_link(
    target: &Bytes,
    mode: u16,
    owner: u32,
    mtime: u64,
    sid: Sid,
) -> Result<Node, AllocError>
    ensures { IfOk result (λ node. node ≡ new_link target.now mode owner mtime sid) }
{
    let target = target.copy()?;
    Ok(make(NodeKind::Link(target), mode, owner, mtime, sid))
}
