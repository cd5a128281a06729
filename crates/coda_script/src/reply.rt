// What a line is answered.
ghost use Rattle.std.specs.Prelude.{◌≡◌, List, ℕ};
ghost use Rattle.coda_fid.specs.declared.op.Record.{Record};
ghost use Rattle.coda_script.specs.declared.reply.Arg.{Arg};
ghost use Rattle.coda_script.specs.declared.reply.HoardEntry.{HoardEntry};
ghost use Rattle.coda_script.specs.declared.reply.Mark.{Mark};

use crate::{Expansion, Refusal};
use coda_certify::Verdict;
use coda_fid::{Bytes, Fid, Name, Path, Record};
use coda_tree::Entries;
use std::marker::Model;

/// Something that a refusal names.
#[derive(Clone, Copy, Debug, PartialEq, Eq)]
pub enum Arg {
    /// A number.
    Number(u64),
    /// An object.
    Object(Fid),
}

/// What a refusal names, in the order in which it is printed.
///
/// Contracts see the list.
#[derive(Debug, Drop)]
pub struct Args {
    items: Vec<Arg>,
}

impl Model for Args {
    ghost Value = { List Arg };

    ghost view = { λ a. a.items.items };
}

impl Args {
    /// What the vector holds.
    pub fn from_vec(items: Vec<Arg>) -> Args
        ensures { result ≡ items.items }
    {
        Args { items }
    }

    /// The items, in their order.
    pub fn args(&self) -> &[Arg]
        ensures { result.now ≡ self.now }
    {
        &self.items
    }
}

/// Numbers, in an order.
///
/// Contracts see the list.
#[derive(Debug, Drop)]
pub struct Numbers {
    items: Vec<u64>,
}

impl Model for Numbers {
    ghost Value = { List ℕ };

    ghost view = { λ n. n.items.items };
}

impl Numbers {
    /// The numbers of the vector.
    pub fn from_vec(items: Vec<u64>) -> Numbers
        ensures { result ≡ items.items }
    {
        Numbers { items }
    }

    /// The numbers, in their order.
    pub fn numbers(&self) -> &[u64]
        ensures { result.now ≡ self.now }
    {
        &self.items
    }
}

/// What became of a chunk at a replica.
#[derive(Clone, Copy, Debug, PartialEq, Eq)]
pub enum Answer {
    /// It was decided.
    Decided(Verdict),
    /// It isn't the next one; the last decided has this number.
    Behind(u64),
    /// It was decided before; the last decided has this number.
    Old(u64),
}

/// Why a chunk was not decided by the message that brought it.
#[derive(Clone, Copy, Debug, PartialEq, Eq)]
pub enum Undecided {
    /// It isn't the next one; the last decided has this number.
    Behind(u64),
    /// It was decided before; the last decided has this number.
    Old(u64),
}

/// What was read of an object that is no directory.
#[derive(Debug, Drop)]
pub enum Readable {
    /// A file's content.
    File(Bytes),
    /// A link's target.
    Link(Bytes),
}

/// How a client works in a volume (Mummert, Ebling and Satyanarayanan 1995).
#[derive(Clone, Copy, Debug, PartialEq, Eq)]
pub enum ClientState {
    /// Connected, and in agreement with the servers.
    Hoarding,
    /// Cut off.
    Emulating,
    /// Connected, and with a log that the servers haven't got.
    WriteDisconnected,
}

/// A path that a client hoards.
#[derive(Debug, Drop)]
pub struct HoardEntry {
    /// The volume that the path is in.
    pub volume: u32,
    /// The path.
    pub path: Path,
    /// From 1 to 1,000.
    pub priority: u16,
    /// What it takes beside the object at the path.
    pub expansion: Expansion,
}

/// Hoard entries, in the database's order.
///
/// Contracts see the list.
#[derive(Debug, Drop)]
pub struct HoardEntries {
    items: Vec<HoardEntry>,
}

impl Model for HoardEntries {
    ghost Value = { List HoardEntry };

    ghost view = { λ e. e.items.items };
}

impl HoardEntries {
    /// The entries of the vector.
    pub fn from_vec(items: Vec<HoardEntry>) -> HoardEntries
        ensures { result ≡ items.items }
    {
        HoardEntries { items }
    }

    /// The entries, in their order.
    pub fn entries(&self) -> &[HoardEntry]
        ensures { result.now ≡ self.now }
    {
        &self.items
    }
}

/// Records of a log, in their order.
///
/// Contracts see the list.
#[derive(Debug, Drop)]
pub struct Records {
    items: Vec<Record>,
}

impl Model for Records {
    ghost Value = { List Record };

    ghost view = { λ r. r.items.items };
}

impl Records {
    /// The records of the vector.
    pub fn from_vec(items: Vec<Record>) -> Records
        ensures { result ≡ items.items }
    {
        Records { items }
    }

    /// The records, in their order.
    pub fn records(&self) -> &[Record]
        ensures { result.now ≡ self.now }
    {
        &self.items
    }
}

/// Why resolution marks an object (Kumar and Satyanarayanan 1993).
#[derive(Debug, Drop)]
pub enum Why {
    /// An update that some replica lacks stands in no log any more: the server that made it, and its number there.
    Wrapped { origin: u8, number: u64 },
    /// A rename between two directories is missing somewhere.
    CrossRename,
    /// Replicas bind the name to different objects.
    NameName(Name),
    /// The object would be bound twice, or was lost by an update and is bound again.
    DoubleName(Fid),
    /// The object was removed at one replica and updated at another.
    RemoveUpdate(Fid),
    /// The attributes were changed at several replicas.
    AttrAttr,
    /// The content was changed at several replicas.
    FileFile,
    /// Some replica has it marked before.
    Kept,
}

/// An object that resolution marks, and why.
#[derive(Debug, Drop)]
pub struct Mark {
    /// The object.
    pub fid: Fid,
    /// Why it is marked.
    pub why: Why,
}

/// Marks, in path order.
///
/// Contracts see the list.
#[derive(Debug, Drop)]
pub struct Marks {
    items: Vec<Mark>,
}

impl Model for Marks {
    ghost Value = { List Mark };

    ghost view = { λ m. m.items.items };
}

impl Marks {
    /// The marks of the vector.
    pub fn from_vec(items: Vec<Mark>) -> Marks
        ensures { result ≡ items.items }
    {
        Marks { items }
    }

    /// The marks, in their order.
    pub fn marks(&self) -> &[Mark]
        ensures { result.now ≡ self.now }
    {
        &self.items
    }
}

/// What a line is answered.
#[derive(Debug, Drop)]
pub enum Reply {
    /// Actors were made, whose disks had so many entries each.
    Opened(Numbers),
    /// It is done.
    Accepted,
    /// The client accepted its operation of this number, on this object.
    Done {
        number: u64,
        fid: Fid,
    },
    /// A file or a link was read; fetched in this line, or served from the cache.
    Read {
        fetched: bool,
        what: Readable,
    },
    /// What a directory binds; fetched in this line, or served from the cache.
    Listed {
        fetched: bool,
        entries: Entries,
    },
    /// What the client hoards.
    Hoarded(HoardEntries),
    /// A hoard walk: how many it kept, fetched and dropped, the blocks cached after it, and the cache's size.
    Walked {
        keep: u64,
        fetch: u64,
        drop: u64,
        used: u64,
        size: u64,
    },
    /// The chunk went out in a message.
    Sent {
        message: u64,
        chunk: u64,
    },
    /// The chunk was sent and answered.
    Drained {
        chunk: u64,
        answer: Answer,
    },
    /// The chunk was delivered, and its answer went out in a message.
    Delivered {
        chunk: u64,
        answer: Answer,
        message: u64,
    },
    /// The verdict of a chunk was delivered, and the chunk is settled.
    Settled {
        chunk: u64,
        verdict: Verdict,
    },
    /// The answer of a chunk was delivered, and the chunk stays frozen, since it was not decided.
    StillFrozen {
        chunk: u64,
        why: Undecided,
    },
    /// So many cached copies became not valid.
    Broken {
        copies: u64,
    },
    /// The message is lost.
    Lost {
        message: u64,
    },
    /// Breaks went out in these messages.
    Posted(Numbers),
    /// The client gave up its log.
    GaveUp(Records),
    /// The actor is down.
    Crashed,
    /// The actor is up again, with so many journal entries since the beginning.
    Recovered {
        entries: u64,
    },
    /// So many objects differ, at some replica, from before, and these are marked.
    Resolved {
        touched: u64,
        marks: Marks,
    },
    /// The object at the path, which all replicas now have.
    Repaired(Fid),
    /// The volume at a server is shown.
    ShowVolume {
        server: u8,
        volume: u32,
    },
    /// The log of a client in a volume is shown.
    ShowLog {
        client: u8,
        volume: u32,
    },
    /// The state of a client in a volume.
    State(ClientState),
    /// The line isn't carried out, for this; and what that names.
    Refused {
        refusal: Refusal,
        args: Args,
    },
}
