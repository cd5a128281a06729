//! Eight counts, and runs of bytes, compared many at a time.
#![tactic(auto)]

mod bytes;
mod counts;
mod law;

pub use bytes::same_bytes;
pub use counts::{Masks, compare8, max8};
pub use law::masks_have_the_bits;
