// What a client holds below what.
ghost use Rattle.std.specs.Prelude.{◌≡◌, ◌≢◌, true, false, Some};
ghost use Rattle.std.specs.FinMap as map;
ghost use Rattle.coda_fid.specs.declared.fid.Fid.{Fid};
ghost use Rattle.coda_cache.specs.Parents.{below_within};
ghost use Rattle.coda_venus.specs.Held.{is_below};

use crate::client::Client;
use coda_fid::Fid;

impl Client {
    ghost use Rattle.coda_venus.specs.Code.{held_of};

    // The parent of an object, where it is held and has one.
    pub(crate) fn parent(&self, fid: Fid) -> Option<Fid>
        ensures { result ≡ map.get (held_of self.now).parents fid }
    {
        self.cache.parent(fid)
    }

    // Whether an object is met on the way up from another, within so many steps.
    fn below_within(&self, steps: usize, from: Fid, fid: Fid) -> bool
        ensures { result ≡ below_within (held_of self.now).parents steps from fid }
    {
        if from == fid {
            return true;
        }
        if steps == 0 {
            return false;
        }
        match self.parent(from) {
            Some(parent) => self.below_within(steps - 1, parent, fid),
            None => false,
        }
    }

    // Whether an object is another one or is held below it: goes up from it, so costs the depth.
    pub(crate) fn is_below(&self, from: Fid, fid: Fid) -> bool
        ensures { result ≡ is_below (held_of self.now).parents from fid }
    {
        self.cache.agree();
        self.below_within(self.cache.len(), from, fid)
    }

    // Whether an object is the parent of another one. It costs a look-up, and one more where it is.
    pub(crate) fn has_below(&self, fid: Fid) -> bool
        ensures yes { result ≡ true → (f : Fid) × (map.get (held_of self.now).parents f ≡ Some fid) }
        ensures no { result ≡ false → (f : Fid) → map.get (held_of self.now).parents f ≢ Some fid }
    {
        self.cache.has_below(fid)
    }
}
