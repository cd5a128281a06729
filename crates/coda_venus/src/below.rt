// Which objects below another a client has operations on that no server applied yet.
ghost use Rattle.std.specs.Prelude.{◌≡◌, ◌||◌};
ghost use Rattle.std.specs.BTreeMap as tree;
ghost use Rattle.std.specs.Ordering.{nat_cmp};
ghost use Rattle.std.specs.List.{list_any};
ghost use Rattle.coda_fid.specs.Op.{over_fids};
ghost use Rattle.coda_cml.specs.Steady.{any_record};
ghost use Rattle.coda_venus.specs.Accepting.{is_mentioned};
ghost use Rattle.coda_venus.specs.Held.{is_held_below, reaches_below, some_below};

use crate::client::Client;
use coda_cancel::LentRecords;
use coda_fid::{Fid, Op, Over};

impl Client {
    ghost use Rattle.coda_venus.specs.Caching.{served_held};
    ghost use Rattle.coda_venus.specs.Code.{volume_in};

    // Whether an object that may be served is held below another, and is not that one.
    fn is_held_below(&self, emulating: bool, fid: Fid, above: Fid) -> bool
        ensures { result ≡ is_held_below (served_held emulating self.now) above fid }
    {
        fid != above && self.is_below(fid, above) && self.serve(emulating, fid).is_some()
    }

    // Whether an operation mentions an object that may be served and is held below another.
    fn reaches_below(&self, emulating: bool, above: Fid, op: &Op) -> bool
        ensures { result ≡ reaches_below (served_held emulating self.now) above op.now }
    {
        match op {
            Op::Create { dir, fid, .. } => self.either_below(emulating, *dir, *fid, above),
            Op::Mkdir { dir, fid, .. } => self.either_below(emulating, *dir, *fid, above),
            Op::Symlink { dir, fid, .. } => self.either_below(emulating, *dir, *fid, above),
            Op::Store { fid, .. } => self.is_held_below(emulating, *fid, above),
            Op::Setattr { fid, .. } => self.is_held_below(emulating, *fid, above),
            Op::Remove { dir, fid, .. } => self.either_below(emulating, *dir, *fid, above),
            Op::Rmdir { dir, fid, .. } => self.either_below(emulating, *dir, *fid, above),
            Op::Rename {
                from_dir,
                to_dir,
                fid,
                over,
                ..
            } => {
                self.is_held_below(emulating, *from_dir, above)
                    || (self.is_held_below(emulating, *to_dir, above)
                        || (self.is_held_below(emulating, *fid, above)
                            || self.over_below(emulating, over, above)))
            }
        }
    }

    // The same of what is replaced, where there is one.
    fn over_below(&self, emulating: bool, over: &Option<Over>, above: Fid) -> bool
        ensures { result ≡ list_any (is_held_below (served_held emulating self.now) above) (over_fids over.now) }
    {
        match over {
            Some(over) => self.is_held_below(emulating, over.fid, above),
            None => false,
        }
    }

    // Whether one of two objects may be served and is held below another.
    fn either_below(&self, emulating: bool, one: Fid, other: Fid, above: Fid) -> bool
        ensures { result ≡ (is_held_below (served_held emulating self.now) above one || is_held_below (served_held emulating self.now) above other) }
    {
        self.is_held_below(emulating, one, above) || self.is_held_below(emulating, other, above)
    }

    // Whether one of some records mentions an object that may be served and is held below another.
    fn any_reaches(&self, emulating: bool, above: Fid, mut records: LentRecords<'_>) -> bool
        ensures { result ≡ any_record (reaches_below (served_held emulating self.now) above) records.entry }
    {
        for _ in 0..records.len() {
            let Some(rec) = records.take_first() else {
                return false;
            };
            if self.reaches_below(emulating, above, &rec.op) {
                return true;
            }
        }
        false
    }

    // Whether a record of a volume's log mentions an object that may be served and is held below another.
    fn is_mentioned_below(&self, emulating: bool, volume: u32, above: Fid) -> bool
        ensures { result ≡ some_below (served_held emulating self.now) (is_mentioned (volume_in (tree.get nat_cmp self.now.logs volume))) above }
    {
        match self.logs.get(&volume) {
            Some(log) => {
                let (chunk, records) = log.log.records();
                self.any_reaches(emulating, above, LentRecords::of(chunk))
                    || self.any_reaches(emulating, above, records)
            }
            None => false,
        }
    }

    /// Whether an object that may be served is held below another, and a record of a volume's log mentions it. It costs a look-up where nothing is held below the
    /// other one, and else the records of the log, and the depth for each.
    pub fn is_dirty_below(&self, emulating: bool, volume: u32, above: Fid) -> bool
        ensures { result ≡ some_below (served_held emulating self.now) (is_mentioned (volume_in (tree.get nat_cmp self.now.logs volume))) above }
    {
        if self.has_below(above) {
            self.is_mentioned_below(emulating, volume, above)
        } else {
            false
        }
    }
}
