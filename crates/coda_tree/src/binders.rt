// At how many names fids are bound, so that the directory that binds one is found without a search.
ghost use Rattle.std.specs.Prelude.{◌≡◌, option_copied};
ghost use Rattle.coda_tree.specs.Pages.{all_pairs};
ghost use Rattle.coda_tree.specs.declared.binders.Bound.TheVariants.{Nowhere};
ghost use Rattle.coda_tree.specs.Binders.{bound_at, bound_after, known_at, after_at, after_leave, after_move, after_all, pairs_of, Notes};

use crate::hasher::FidMap;
use crate::{Node, NodeKind};
use coda_fid::{Fid, Name};
use std::alloc::Global;
use std::hash::BuildHasherDefault;

// At how many names a fid is bound, in all directories.
#[derive(Clone, Copy)]
pub(crate) enum Bound {
    // At none.
    Nowhere,
    // At one, which this directory binds.
    Once(Fid),
    // At any number of names, of any directories.
    Unsure,
}

// What changes in how a fid is bound.
#[derive(Clone, Copy)]
pub(crate) enum Change {
    // This directory binds it at one name more.
    More(Fid),
    // It is bound at one name less.
    Less,
    // It is bound at one name less, and this directory binds it at one name more.
    Moved(Fid),
}

// What is known of how fids are bound. An entry more may be refused its memory: then what has no entry is unsure, and
// what is asked of it has to be searched for.
#[derive(Drop)]
pub(crate) struct Binders {
    kept: FidMap<Bound>,
    // Whether each fid that has no entry is bound nowhere.
    whole: bool,
}

impl Bound {
    // What is known after a change.
    fn after(self, change: Change) -> Bound
        ensures { result ≡ bound_after change self }
    {
        match change {
            Change::More(dir) => match self {
                Bound::Nowhere => Bound::Once(dir),
                Bound::Once(_) => Bound::Unsure,
                Bound::Unsure => Bound::Unsure,
            },
            Change::Less => match self {
                Bound::Nowhere => Bound::Nowhere,
                Bound::Once(_) => Bound::Nowhere,
                Bound::Unsure => Bound::Unsure,
            },
            Change::Moved(dir) => match self {
                Bound::Nowhere => Bound::Once(dir),
                Bound::Once(_) => Bound::Once(dir),
                Bound::Unsure => Bound::Unsure,
            },
        }
    }
}

impl Binders {
    // Nothing is bound.
    pub(crate) fn new(alloc: Global) -> Binders
        ensures { (f : Fid) → bound_at result f ≡ Nowhere }
    {
        Binders {
            kept: FidMap::with_hasher(alloc, BuildHasherDefault::new()),
            whole: true,
        }
    }

    // How a fid is bound.
    pub(crate) fn get(&self, fid: Fid) -> Bound
        ensures { result ≡ bound_at self.now fid }
    {
        match self.kept.get(&fid) {
            Some(bound) => *bound,
            None if self.whole => Bound::Nowhere,
            None => Bound::Unsure,
        }
    }

    // Notes a change in how a fid is bound.
    pub(crate) fn change(&mut self, fid: Fid, change: Change)
        ensures { Notes self.old self.new (after_at fid change) }
    {
        match self.get(fid).after(change) {
            Bound::Nowhere => self.forget(fid),
            bound => self.keep(fid, bound),
        }
    }

    // Keeps that a fid is bound nowhere.
    fn forget(&mut self, fid: Fid)
        ensures { Notes self.old self.new (known_at fid Nowhere) }
    {
        let _ = self.kept.remove(&fid);
    }

    // Keeps how a fid is bound.
    fn keep(&mut self, fid: Fid, bound: Bound)
        ensures { Notes self.old self.new (known_at fid bound) }
    {
        match self.kept.insert(fid, bound) {
            Ok(_) => {}
            Err(_) => self.whole = false,
        }
    }

    // Notes that a name is gone which was bound to this.
    pub(crate) fn leave(&mut self, was: Option<Fid>)
        ensures { Notes self.old self.new (after_leave was) }
    {
        if let Some(fid) = was {
            self.change(fid, Change::Less);
        }
    }

    // Notes that a name is gone which was bound to this, and that a directory binds a fid at a name more.
    pub(crate) fn move_to(&mut self, was: Option<Fid>, fid: Fid, dir: Fid)
        ensures { Notes self.old self.new (after_move was fid dir) }
    {
        if was == Some(fid) {
            self.change(fid, Change::Moved(dir));
        } else {
            self.leave(was);
            self.change(fid, Change::More(dir));
        }
    }

    // Notes a change for each name that a node binds, where there is one.
    pub(crate) fn change_all(&mut self, node: Option<&Node>, change: Change)
        ensures { Notes self.old self.new (after_all change (pairs_of (option_copied node.entry))) }
    {
        let Some(node) = node else {
            return;
        };
        match &node.kind {
            NodeKind::Dir(entries) => change_pages(self, entries.pages(), change),
            NodeKind::File(_) => {}
            NodeKind::Link(_) => {}
        }
    }
}

// Notes a change for each name of a page.
fn change_page(binders: &mut Binders, page: &[(Name, Fid)], change: Change)
    ensures { Notes binders.old binders.new (after_all change page.now) }
{
    for pair in page {
        binders.change(pair.1, change);
    }
}

// Notes a change for each name of some pages.
fn change_pages(binders: &mut Binders, pages: &[Vec<(Name, Fid)>], change: Change)
    ensures { Notes binders.old binders.new (after_all change (all_pairs pages.now)) }
{
    for page in pages {
        change_page(binders, page, change);
    }
}
