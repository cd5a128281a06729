ghost use Rattle.std.specs.Prelude.{ℕ, List};
ghost use Rattle.coda_fid.specs.declared.fid.Fid.{Fid};
ghost use Rattle.coda_walk.specs.declared.item.Item.{Item};
ghost use Rattle.coda_walk.specs.Going.{who_goes};
ghost use Rattle.coda_walk.specs.Laws.{MakesRoom, GoRightly};
ghost use Rattle.coda_walk.specs.Planning.{plan};
ghost use Rattle.coda_walk.specs.Turns.{AreOnce, GoInTurn};
ghost use Rattle.coda_walk.specs.Equilibrium.{IsInEquilibrium};

/// Who goes is right: nobody goes who is pinned, kept or the parent of one that stays; what stays fits; and nobody goes
/// needlessly.
pub fn who_goes_is_right()
    ensures { (size : ℕ) (kept : List Fid) (items : List Item) → MakesRoom size kept items → GoRightly size kept items (who_goes size kept items) }
{}

/// Plans are in equilibrium: a candidate that a plan leaves uncached doesn't fit beside the pinned objects and the candidates
/// taken before it (Kistler and Satyanarayanan 1992).
pub fn plans_are_in_equilibrium()
    ensures { (size : ℕ) (items : List Item) (recency : List Fid) → IsInEquilibrium size items (plan size items recency) }
{}

/// Those who go from a cache go in turn: each is the first, of what is left then, that is neither pinned nor kept and has nothing
/// under it. What has no priority goes before what has one, by its use, the least recently used first; what has one goes
/// by it, the least first, and of the same priority the greater fid goes first.
pub fn they_go_in_turn()
    ensures { (size : ℕ) (kept : List Fid) (items : List Item) → AreOnce items → GoInTurn kept items (who_goes size kept items) }
{}
