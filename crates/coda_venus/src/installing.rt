// What a client on a disk fetched.
ghost use Rattle.std.specs.Prelude.{◌≡◌, ◌≢◌, ◌≤◌, List, [], ◌∷◌, true, false, None, IsErrOf, OnOk, Err};
ghost use Rattle.std.specs.FinMap as map;
ghost use Rattle.coda_fid.specs.declared.fid.Fid.{Fid as AFid};
ghost use Rattle.coda_io.specs.Faults.{Rose};
ghost use Rattle.coda_journal.specs.declared.header.Header.{Header as AskedHeader};
ghost use Rattle.coda_record.specs.Entries.{node as a_node};
ghost use Rattle.coda_record.specs.Form.{four};
ghost use Rattle.coda_record.specs.Parts.{optional};
ghost use Rattle.coda_record.specs.Spelling.{HasSpelling};
ghost use Rattle.coda_record.specs.Table.{fid as a_fid};
ghost use Rattle.coda_record.specs.declared.entry.ClientEntry.TheVariants.{Fetched as FetchedEntry};
ghost use Rattle.coda_venus.specs.Code.{held_of};
ghost use Rattle.coda_venus.specs.History.{Payload, IsParent, state_of};
ghost use Rattle.coda_venus.specs.Keeping.{IsMissed, parent_for, fetched_due, KeepingOne, DoesKeep, Falls};

use crate::client::Client;
use crate::entries::{fetched_frame, has_room};
use crate::refused::Refused;
use crate::venus::Venus;
use coda_disk::Disk;
use coda_fid::Fid;
use coda_tree::Node;

// A fact of the type of fids: each can be spelled.
fn has_spelling(volume: u32, vnode: u32, uniq: u32)
    ensures { (f : AFid) → f.volume ≡ volume → f.vnode ≡ vnode → f.uniq ≡ uniq → HasSpelling a_fid f }
{}

impl Client {
    // The parent that an object is cached with which isn't cached yet: its own one, and else the first directory that binds it.
    fn parent_for(&self, fid: Fid) -> Option<Fid>
        ensures parent { result ≡ parent_for (held_of self.now) fid }
        ensures place { IsMissed self.now.cache.nodes fid → IsParent (held_of self.now) fid result }
    {
        match self.parent(fid) {
            Some(parent) => Some(parent),
            None => self.cache.binder(fid),
        }
    }
}

// The same of a fid that is there.
pub(crate) fn fid_spelled(fid: Fid)
    ensures { HasSpelling a_fid fid }
{
    has_spelling(fid.volume, fid.vnode, fid.uniq);
}

// The same of one that may be there.
pub(crate) fn parent_spelled(parent: Option<Fid>)
    ensures { HasSpelling (optional a_fid) parent }
{
    if let Some(fid) = parent {
        fid_spelled(fid);
    }
}

impl<D: Disk> Venus<D> {
    ghost use Rattle.coda_venus.specs.Standing.{IsUp};

    // Keeps an object that was fetched. The payload is made, and its room tested, before what is held changes.
    fn keep_fetched(&mut self, fid: Fid, parent: Option<Fid>, node: Node) -> Result<(), Refused>
        requires up { self.old.down ≡ false }
        requires node { HasSpelling (a_node four) node }
        requires absent { map.get self.old.client.cache.nodes fid ≡ None }
        requires place { IsParent (held_of self.old.client) fid parent }
        ensures keeps { (header : AskedHeader) (history : List Payload) → IsUp D.told header self.old history
            → KeepingOne D.told header self.old history (FetchedEntry fid parent node ∷ []) self.new result }
        ensures never { result ≢ Err Refused.Down }
        ensures held { OnOk result (self.new.client.cache.nodes ≡ map.insert self.old.client.cache.nodes fid node) }
        ensures falls { Falls self.old.down self.new.down result }
        ensures later { D.faults self.old.journal.disk ≤ D.faults self.new.journal.disk }
        ensures cause { IsErrOf result Refused.DiskFault → Rose (D.faults self.old.journal.disk) (D.faults self.new.journal.disk) }
        ensures arms { D.arms self.new.journal.disk ≡ D.arms self.old.journal.disk }
    {
        fid_spelled(fid);
        parent_spelled(parent);
        let frame = fetched_frame(self.client.alloc, fid, parent, &node)?;
        if !has_room(&self.journal, &frame) {
            return Err(Refused::JournalFull);
        }
        self.client.hold(fid, parent, node)?;
        self.write(&frame)
    }

    /// Whether an object may be fetched: it isn't held, and is a volume's root or bound in a directory that is held.
    pub fn misses(&self, fid: Fid) -> bool
        ensures yes { result ≡ true → IsMissed self.now.client.cache.nodes fid }
        ensures no { IsMissed self.now.client.cache.nodes fid → result ≡ true }
    {
        if self.client.cache.peek(fid).is_some() {
            return false;
        }
        fid == Fid::root(fid.volume) || self.client.cache.binder(fid).is_some()
    }

    /// Holds an object that was fetched, one that the client misses. It is on the disk before it is answered.
    ///
    /// Whatever it answers, a crash at any moment since its start leaves the history that was there, or that history with this
    /// object.
    ///
    /// # Errors
    ///
    /// `Down` exactly where the client is down. Else `JournalFull` where the journal has no room for the object, and `Memory`, which
    /// change nothing; or `DiskFault`, after which the client is down.
    pub fn installed(&mut self, fid: Fid, node: Node) -> Result<(), Refused>
        requires node { HasSpelling (a_node four) node }
        requires missed { IsMissed self.old.client.cache.nodes fid }
        ensures keeps { (header : AskedHeader) (history : List Payload) → IsUp D.told header self.old history
            → DoesKeep D.told header self.old history (fetched_due (state_of header history) fid node) self.new result }
        ensures held { OnOk result (self.new.client.cache.nodes ≡ map.insert self.old.client.cache.nodes fid node) }
        ensures down { self.old.down ≡ true → (result ≡ Err Refused.Down) × (self.new ≡ self.old) }
        ensures only_down { result ≡ Err Refused.Down → self.old.down ≡ true }
        ensures falls { Falls self.old.down self.new.down result }
        ensures later { D.faults self.old.journal.disk ≤ D.faults self.new.journal.disk }
        ensures cause { IsErrOf result Refused.DiskFault → Rose (D.faults self.old.journal.disk) (D.faults self.new.journal.disk) }
        ensures arms { D.arms self.new.journal.disk ≡ D.arms self.old.journal.disk }
    {
        if self.down {
            return Err(Refused::Down);
        }
        let parent = self.client.parent_for(fid);
        self.keep_fetched(fid, parent, node)
    }
}
