// Where to look for a name first in a directory of many pages.
use coda_fid::{Fid, Name};
use std::alloc::Global;

// The number of pages from which on a row of fronts is kept.
const MANY: usize = 8;

// The bytes of a name that are its front.
const FRONT: usize = 16;

// The fronts of the first names of the pages, in one row, so that a search reads few places of memory. They only say where
// to look first: what is found there is compared, so nothing rests on them, and where memory is wanted there are none.
#[derive(Debug, Drop)]
pub(crate) struct Guide {
    fronts: Option<Box<Vec<u128>>>,
}

// The front of a name as a number: its first bytes, and zeros where it is shorter.
fn front_of(name: &Name) -> u128 {
    let bytes = name.bytes();
    let mut front = [0; FRONT];
    let count = bytes.len().min(FRONT);
    front[..count].copy_from_slice(&bytes[..count]);
    u128::from_be_bytes(front)
}

// The front of the first name of a page.
fn front_at(page: &[(Name, Fid)]) -> u128 {
    match page {
        [] => 0,
        [first, ..] => front_of(&first.0),
    }
}

// The first place from one on whose front isn't below this, by halves; at the end first, since names often come in order.
fn first_from(fronts: &[u128], front: u128) -> usize {
    let mut low = 0;
    let mut high = fronts.len();
    if high > 0 && fronts[high - 1] < front {
        return high;
    }
    while low < high {
        let mid = low + (high - low) / 2;
        if fronts[mid] < front {
            low = mid + 1;
        } else {
            high = mid;
        }
    }
    low
}

// The fronts of pages; none where memory is wanted.
fn fronts_of(alloc: Global, pages: &[Vec<(Name, Fid)>]) -> Option<Box<Vec<u128>>> {
    let mut fronts = Vec::with_capacity(alloc, pages.len()).ok()?;
    for page in pages {
        fronts.push(front_at(page)).ok()?;
    }
    Box::new(alloc, fronts).ok()
}

impl Guide {
    // No fronts.
    pub(crate) fn new() -> Guide {
        Guide { fronts: None }
    }

    // The fronts of pages, where there are many.
    pub(crate) fn of(alloc: Global, pages: &[Vec<(Name, Fid)>]) -> Guide {
        if pages.len() < MANY {
            return Guide::new();
        }
        Guide {
            fronts: fronts_of(alloc, pages),
        }
    }

    // From which page to before which other a name belongs, if the fronts are those of so many pages.
    pub(crate) fn between(&self, pages: usize, name: &Name) -> Option<(usize, usize)> {
        let fronts = match &self.fronts {
            Some(fronts) if fronts.len() == pages => fronts.as_slice(),
            _ => return None,
        };
        let front = front_of(name);
        let first = first_from(fronts, front);
        let end = match front.checked_add(1) {
            Some(next) if first < pages && fronts[first] == front => first_from(fronts, next),
            _ => first,
        };
        Some((first.saturating_sub(1), end.max(1)))
    }

    // Notes the first name of a page.
    pub(crate) fn note(&mut self, pages: &[Vec<(Name, Fid)>], at: usize) {
        if let Some(fronts) = &mut self.fronts {
            if at < fronts.len() && at < pages.len() {
                fronts[at] = front_at(&pages[at]);
            }
        }
    }

    // Notes that a page is new at a place.
    pub(crate) fn grow(&mut self, alloc: Global, pages: &[Vec<(Name, Fid)>], at: usize) {
        if let Some(fronts) = &mut self.fronts {
            if at < pages.len()
                && at <= fronts.len()
                && fronts.insert(at, front_at(&pages[at])).is_ok()
            {
                return;
            }
        }
        *self = Guide::of(alloc, pages);
    }

    // Notes that the page at a place is gone.
    pub(crate) fn shrink(&mut self, at: usize) {
        if let Some(fronts) = &mut self.fronts {
            if at < fronts.len() {
                let _ = fronts.remove(at);
            }
        }
    }
}
