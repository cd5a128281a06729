//! The names of objects and of operations, paths, and the operations on a volume as clients
//! record them.
#![tactic(auto)]

mod bytes;
mod fid;
mod name;
mod op;
mod path;

pub use bytes::Bytes;
pub use fid::{Fid, Sid};
pub use name::{Name, NameFault};
pub use op::{Attrs, Op, Over, Record};
pub use path::Path;
