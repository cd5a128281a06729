ghost use Rattle.std.specs.Prelude.{◌≡◌, List, IfSome};
ghost use Rattle.coda_walk.specs.declared.item.Item.{Item};
ghost use Rattle.coda_walk.specs.Going.{blocks_of, without};
ghost use Rattle.coda_walk.specs.Laws.{left};
ghost use Rattle.coda_walk.specs.Queue.{with_last, with_item};
ghost use Rattle.coda_cache.specs.Indexed.{IsQueued, AreInOrder, standing_of, standings, renewed_items};

use crate::contents::Contents;
use coda_fid::Fid;
use coda_walk::Queue;

// The cached nodes as a queue, of which who goes is found without a look at all of them. It is kept from when it is asked for; where
// a change wanted memory that was not there it is given up, until it is asked for anew.
#[derive(Drop)]
pub(crate) struct Queued {
    pub queue: Option<Queue>,
}

impl Queued {
    // No queue.
    pub(crate) fn none() -> Queued
        ensures { (items : List Item) → IsQueued result items }
    {
        Queued { queue: None }
    }

    // Gives the queue up.
    fn give_up(&mut self)
        ensures { (items : List Item) → IsQueued self.new items }
    {
        self.queue = None;
    }

    // The queue of the cached nodes.
    pub(crate) fn of(contents: &Contents) -> Queued
        ensures { IsQueued result (standings contents.now) }
    {
        match contents.queue() {
            Ok(queue) => Queued { queue },
            Err(_) => Queued::none(),
        }
    }

    // Makes the queue anew, where it was given up.
    pub(crate) fn restore(&mut self, contents: &Contents)
        ensures { IsQueued self.old (standings contents.now) → IsQueued self.new (standings contents.now) }
    {
        if self.queue.is_none() {
            *self = Queued::of(contents);
        }
    }

    // The blocks that all items take together, where that is known.
    pub(crate) fn blocks(&self) -> Option<u64>
        ensures sum { (items : List Item) → IsQueued self.now items → IfSome result (λ blocks. blocks ≡ blocks_of items) }
        ensures rises { (items : List Item) → IsQueued self.now items → IfSome result (λ _. AreInOrder items) }
    {
        match &self.queue {
            Some(queue) => Some(queue.blocks()),
            None => None,
        }
    }

    // Puts in a cached node as the one that is used last, in the place of the item that it has. How it stands is looked up
    // where a queue is kept alone.
    pub(crate) fn put(&mut self, contents: &Contents, fid: Fid)
        ensures { (items : List Item) → IsQueued self.old items → IsQueued self.new (with_last items (standing_of contents.now fid)) }
    {
        if let Some(queue) = &mut self.queue {
            if queue.put(contents.standing(fid)).is_err() {
                self.give_up();
            }
        }
    }

    // Puts a cached node as it stands in the place of the item that it has, where it has one.
    pub(crate) fn change(&mut self, contents: &Contents, fid: Fid)
        ensures { (items : List Item) → IsQueued self.old items → IsQueued self.new (with_item (standing_of contents.now fid) items) }
    {
        if let Some(queue) = &mut self.queue {
            if queue.change(contents.standing(fid)).is_err() {
                self.give_up();
            }
        }
    }

    // Takes out the item of an object.
    pub(crate) fn take_out(&mut self, fid: Fid)
        ensures { (items : List Item) → IsQueued self.old items → IsQueued self.new (without fid items) }
    {
        if let Some(queue) = &mut self.queue {
            if queue.take_out(fid).is_err() {
                self.give_up();
            }
        }
    }

    // Takes out the items of objects.
    pub(crate) fn take_all(&mut self, fids: &[Fid])
        ensures { (items : List Item) → IsQueued self.old items → IsQueued self.new (left fids.now items) }
    {
        for fid in fids {
            self.take_out(*fid);
        }
    }

    // Puts the items of cached nodes anew.
    pub(crate) fn renew(&mut self, contents: &Contents, fids: &[Fid])
        ensures { (items : List Item) → IsQueued self.old items → IsQueued self.new (renewed_items (standing_of contents.now) fids.now items) }
    {
        for fid in fids {
            self.change(contents, *fid);
        }
    }
}
