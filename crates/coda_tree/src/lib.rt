//! Volumes: trees of nodes whose root is a directory, and tables of nodes that are no tree.
#![tactic(auto)]

mod binders;
mod body;
mod draft;
mod entries;
mod guide;
mod hasher;
mod node;
mod nodes;
mod pages;
mod slot;
mod slots;
mod table;
mod undo;
mod volume;

pub use body::Body;
pub use draft::Draft;
pub use entries::Entries;
pub use hasher::{FidHash, FidHasher, FidMap};
pub use node::{Node, NodeKind};
pub use table::NodeTable;
pub use volume::{PathFault, Volume};
