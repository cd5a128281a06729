ghost use Rattle.std.specs.Prelude.{◌≡◌, ◌≢◌, true, false, Some};
ghost use Rattle.std.specs.List.{list_any};
ghost use Rattle.std.specs.FinMap as map;
ghost use Rattle.coda_fid.specs.declared.fid.Fid.{Fid};
ghost use Rattle.coda_cache.specs.Keeping.{Agree};
ghost use Rattle.coda_cache.specs.State.{parent_of};
ghost use Rattle.coda_cache.specs.Ways.{is_below};
ghost use Rattle.coda_cache.specs.Indexed.{is_parent, is_kept_under};

use crate::Cache;
use crate::children::FidSet;
use crate::contents::Contents;
use coda_fid::Fid;
use coda_tree::FidMap;

// Whether a parent, where there is one, is a directory.
pub(crate) fn is_parent(dir: Fid, parent: Option<Fid>) -> bool
    ensures { result ≡ is_parent dir parent }
{
    match parent {
        Some(parent) => dir == parent,
        None => false,
    }
}

// Whether one of these nodes is cached under a directory.
fn any_child(contents: &Contents, dir: Fid, fids: &FidSet) -> bool
    ensures { result ≡ list_any (λ f. is_parent dir (parent_of contents.now f)) fids.now.keys }
{
    for fid in fids.iter() {
        if is_parent(dir, contents.parent(*fid)) {
            return true;
        }
    }
    false
}

// Whether a node is cached under a directory, by the fids that are kept under each.
fn any_under(contents: &Contents, parents: &FidMap<FidSet>, dir: Fid) -> bool
    requires { (f : Fid) → parent_of contents.now f ≡ Some dir → is_kept_under parents.now dir f ≡ true }
    ensures yes { result ≡ true → (f : Fid) × (parent_of contents.now f ≡ Some dir) }
    ensures no { result ≡ false → (f : Fid) → parent_of contents.now f ≢ Some dir }
{
    match parents.get(&dir) {
        Some(fids) => any_child(contents, dir, fids),
        None => false,
    }
}

impl Contents {
    // Whether a node is another, or cached below it: goes up from it, for no more steps than there are nodes. Takes no memory.
    #[tactic(auto, unfolding(crate::specs::Ways::way_up))]
    pub(crate) fn stands_below(&self, fid: Fid, of: Fid) -> bool
        ensures { result ≡ is_below self.now fid of }
    {
        let mut at = Some(fid);
        for _step in 0..self.len() {
            match at {
                Some(on) => {
                    if on == of {
                        return true;
                    }
                    at = self.parent(on);
                }
                None => return false,
            }
        }
        false
    }

    // Whether a node is cached under a directory, by a look at all holds. Takes no memory.
    pub(crate) fn holds_under(&self, dir: Fid) -> bool
        ensures yes { result ≡ true → (f : Fid) × (parent_of self.now f ≡ Some dir) }
        ensures no { result ≡ false → (f : Fid) → parent_of self.now f ≢ Some dir }
    {
        self.holds.any_under(dir)
    }
}

impl Cache {
    /// How many nodes are cached.
    pub fn len(&self) -> usize
        ensures { result ≡ map.len self.now.nodes }
    {
        self.contents.agree();
        self.contents.len()
    }

    /// A fact of the type: each node that is cached is held and stands in the order of use, and nothing else does.
    pub fn agree(&self)
        ensures { Agree self.now.nodes self.now.holds self.now.recency }
    {
        self.contents.agree();
    }

    /// Whether a node is another, or cached below it. Costs its depth, and takes no memory.
    pub fn is_below(&self, fid: Fid, of: Fid) -> bool
        ensures { result ≡ is_below self.now fid of }
    {
        self.contents.stands_below(fid, of)
    }

    /// Whether a node is cached under another. It costs a look-up where none is, and takes no memory.
    pub fn has_below(&self, fid: Fid) -> bool
        ensures yes { result ≡ true → (f : Fid) × (parent_of self.now f ≡ Some fid) }
        ensures no { result ≡ false → (f : Fid) → parent_of self.now f ≢ Some fid }
    {
        match &self.children.parents {
            Some(parents) => any_under(&self.contents, parents, fid),
            None => self.contents.holds_under(fid),
        }
    }
}
