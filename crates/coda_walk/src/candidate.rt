use coda_fid::Fid;
use std::cmp::Reverse;

// An object with a priority. Those of greater priority come first, and of the same one those with the smaller fid.
#[derive(Clone, Copy, Debug, PartialEq, Eq, PartialOrd, Ord)]
pub(crate) struct Candidate {
    pub priority: Reverse<u16>,
    pub fid: Fid,
}

// An object and how many directories are above it. Those with fewer above them come first, and of the same depth those with
// the smaller fid.
#[derive(Clone, Copy, Debug, PartialEq, Eq, PartialOrd, Ord)]
pub(crate) struct Place {
    pub depth: usize,
    pub fid: Fid,
}
