ghost use Rattle.std.specs.Prelude.{◌≡◌, ℕ, Bool, List, Option, Ok};
ghost use Rattle.coda_fid.specs.declared.fid.Fid.{Fid};
ghost use Rattle.coda_fid.specs.declared.op.Record.{Record};
ghost use Rattle.coda_tree.specs.declared.node.Node.{Node};
ghost use Rattle.coda_cache.specs.State.{CacheState, empty_cache};
ghost use Rattle.coda_cache.specs.Steps.{used, invalidated, invalidated_from, pinned_to, pinned_in, marked, put_in, walked, dropped, removed, mutated};
ghost use Rattle.coda_walk.specs.Laws.{GoRightly};
ghost use Rattle.coda_cache.specs.Room.{evicted_for, items_with, kept_for, items_of, with_ancestors, pinned_blocks, further_blocks, operated, evicted_after};
ghost use Rattle.coda_cache.specs.Laws.{IsCache, MayHold, MayHoldAll, MayGo, MayMutate, KeepsPlace, IsFullRightly};

/// Each step of a cache leaves a cache: its nodes are held, stand once in the order of use, and have parents that are cached
/// and less deep. A node is put under a parent that is cached; nodes go with what is below them; and a client moves no
/// node into what is below that node, or below one that it takes out.
pub fn steps_keep_caches()
    ensures empty { (size : ℕ) → IsCache (empty_cache size) }
    ensures used { (c : CacheState) (f : Fid) → IsCache c → IsCache (used c f) }
    ensures invalidated { (c : CacheState) (f : Fid) → IsCache c → IsCache (invalidated c f) }
    ensures invalidated_from { (c : CacheState) (volume server : ℕ) → IsCache c → IsCache (invalidated_from c volume server) }
    ensures pinned_to { (c : CacheState) (fids : List Fid) → IsCache c → IsCache (pinned_to c fids) }
    ensures pinned_in { (c : CacheState) (volume : ℕ) (fids : List Fid) → IsCache c → IsCache (pinned_in c volume fids) }
    ensures marked { (c : CacheState) (f : Fid) (dirty : Bool) → IsCache c → IsCache (marked c f dirty) }
    ensures put { (c : CacheState) (f : Fid) (parent : Option Fid) (node : Node) (from : Option ℕ) → IsCache c → MayHold c f parent → IsCache (put_in c f parent node from) }
    ensures walked { (c : CacheState) (puts : List (Fid × Option Fid × Node × ℕ)) (of : List (Fid × ℕ)) → IsCache c → MayHoldAll c puts → IsCache (walked c puts of) }
    ensures dropped { (c : CacheState) (fids : List Fid) → IsCache c → MayGo c fids → IsCache (dropped c fids) }
    ensures removed { (c : CacheState) (f : Fid) → IsCache c → IsCache (removed c f) }
    ensures mutated { (c : CacheState) (client : ℕ) (rec : Record) → IsCache c → MayMutate c rec.op → IsCache (mutated c client rec) }
{}

/// Who goes for a node that is put goes rightly: nobody goes who is pinned, who is kept or who is above one that stays; what
/// stays fits, with the node; and nobody goes needlessly.
pub fn who_goes_for_a_node_is_right()
    ensures { (c : CacheState) (f : Fid) (parent : Option Fid) (blocks : ℕ) (keep gone : List Fid) → IsCache c → MayHold c f parent → evicted_for c f parent blocks keep ≡ Ok gone → GoRightly c.size (kept_for c f parent keep) (items_with c f parent blocks) gone }
{}

/// Who goes for an operation goes rightly: nobody goes who is pinned once it is made, whom it looked up or who is above that
/// before it, and nobody who is above one that stays; what stays fits; and nobody goes needlessly. It can't be made exactly
/// where the blocks that are pinned then and those of what is kept besides exceed the size.
pub fn who_goes_for_an_operation_is_right()
    ensures goes { (c : CacheState) (client volume : ℕ) (rec : Record) (mentioned looked_up gone : List Fid) → IsCache c → MayMutate c rec.op → KeepsPlace c (operated c client volume rec mentioned) rec.op looked_up → evicted_after c client volume rec mentioned looked_up ≡ Ok gone → GoRightly c.size (with_ancestors c looked_up) (items_of (operated c client volume rec mentioned)) gone }
    ensures full { (c : CacheState) (client volume : ℕ) (rec : Record) (mentioned looked_up : List Fid) → IsFullRightly c.size (pinned_blocks (items_of (operated c client volume rec mentioned))) (further_blocks (with_ancestors c looked_up) (items_of (operated c client volume rec mentioned))) (evicted_after c client volume rec mentioned looked_up) }
{}
