use coda_fid::{Attrs, Bytes, Fid, Name, Sid};

/// What is left of a client's operation that has begun: to be done once it is logged, or to be undone where it can't be.
/// Neither wants memory.
#[derive(Drop)]
pub enum Begun {
    /// A node is cached and bound at the name.
    Made {
        /// Its directory.
        dir: Fid,
        /// Its name there.
        name: Name,
        /// The node.
        fid: Fid,
    },
    /// A file is to have this content.
    Content {
        /// The file.
        fid: Fid,
        /// The content.
        content: Bytes,
        /// The time, in seconds.
        mtime: u64,
        /// The version that the operation leaves.
        sid: Sid,
    },
    /// A node is to have these attributes.
    Attributes {
        /// The node.
        fid: Fid,
        /// The attributes.
        attrs: Attrs,
        /// The version that the operation leaves.
        sid: Sid,
    },
    /// A node is to be unbound, and to go with what is cached below it.
    Leaving {
        /// Its directory.
        dir: Fid,
        /// Its name there.
        name: Name,
        /// The node.
        fid: Fid,
    },
    /// A node is bound at its new name too, and is to be unbound at the old one.
    Moving {
        /// The directory that it leaves.
        from_dir: Fid,
        /// Its name there.
        from: Name,
        /// The directory that it comes to.
        to_dir: Fid,
        /// Its name there.
        to: Name,
        /// The node.
        fid: Fid,
    },
    /// A node is to be bound in the place of another, which is to go with what is cached below it.
    Replacing {
        /// The other node.
        over: Fid,
        /// The directory that the node leaves.
        from_dir: Fid,
        /// Its name there.
        from: Name,
        /// The directory that it comes to.
        to_dir: Fid,
        /// The name there.
        to: Name,
        /// The node.
        fid: Fid,
    },
}
