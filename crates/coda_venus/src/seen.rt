use coda_fid::Fid;
use coda_tree::Node;

/// An object that was looked up, with a copy of what is cached of it.
#[derive(Debug, Drop)]
pub struct Seen {
    /// The object.
    pub fid: Fid,
    /// What is cached of it.
    pub node: Node,
}
