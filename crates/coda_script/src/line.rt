ghost use Rattle.std.specs.Prelude.{◌≡◌, List, ℕ, IfOk};

use coda_fid::{Attrs, Bytes, Name, Path};
use std::alloc::AllocError;
use std::marker::Model;

/// The servers of a volume, each of 1 to 8 and greater than the one before it.
///
/// Contracts see the list of their numbers.
#[derive(Debug, Drop)]
pub struct Servers {
    pub(crate) items: Vec<u8>,
}

impl Model for Servers {
    ghost Value = { List ℕ };

    ghost view = { λ s. s.items.items };
}

impl Servers {
    /// The servers, in their order.
    pub fn servers(&self) -> &[u8]
        ensures { result.now ≡ self.now }
    {
        &self.items
    }

    /// The same servers, in memory of their own.
    pub fn copy(&self) -> Result<Servers, AllocError>
        ensures { IfOk result (λ s. s ≡ self.now) }
    {
        let items = self.items.clone()?;
        Ok(Servers { items })
    }
}

/// How well a client reaches a server (Mummert, Ebling and Satyanarayanan 1995).
#[derive(Clone, Copy, Debug, PartialEq, Eq)]
pub enum Strength {
    /// As fast as a local network.
    Strong,
    /// Slowly, or at a cost.
    Weak,
    /// Not at all.
    Down,
}

/// What a hoard entry takes beside the object at its path (Kistler and Satyanarayanan 1992).
#[derive(Clone, Copy, Debug, PartialEq, Eq)]
pub enum Expansion {
    /// Nothing.
    Alone,
    /// What its directory binds.
    Children,
    /// All below it.
    Descendants,
}

/// What a store leaves in a file.
#[derive(Debug, Drop)]
pub enum Content {
    /// These bytes.
    Text(Bytes),
    /// One byte, so many times.
    Fill { length: u32, byte: u8 },
}

/// Rights on a directory. A line has them as their letters in this order, or as `-` where there is none.
#[derive(Clone, Copy, Debug, PartialEq, Eq)]
pub struct Rights {
    /// `r`: to read files and links.
    pub read: bool,
    /// `l`: to look names up.
    pub lookup: bool,
    /// `i`: to bind names.
    pub insert: bool,
    /// `d`: to unbind names.
    pub delete: bool,
    /// `w`: to store, and to set attributes.
    pub write: bool,
}

/// How the versions of a file in conflict become one.
#[derive(Clone, Copy, Debug, PartialEq, Eq)]
pub enum Rule {
    /// The longest stays.
    Longer,
    /// The lines of all stay.
    Union,
}

/// What a client does in a volume, by itself or in a thread of its own.
#[derive(Debug, Drop)]
pub enum Task {
    /// `create C V P` with `mode M` and `owner O`.
    Create {
        client: u8,
        volume: u32,
        path: Path,
        mode: Option<u16>,
        owner: Option<u32>,
    },
    /// `mkdir C V P` with `mode M` and `owner O`.
    Mkdir {
        client: u8,
        volume: u32,
        path: Path,
        mode: Option<u16>,
        owner: Option<u32>,
    },
    /// `symlink C V P T`.
    Symlink {
        client: u8,
        volume: u32,
        path: Path,
        target: Bytes,
    },
    /// `store C V P text T` or `store C V P fill N B`.
    Store {
        client: u8,
        volume: u32,
        path: Path,
        content: Content,
    },
    /// `setattr C V P` with `mode M`, `owner O` and `mtime N`, of which one is set at least.
    Setattr {
        client: u8,
        volume: u32,
        path: Path,
        attrs: Attrs,
    },
    /// `remove C V P`.
    Remove {
        client: u8,
        volume: u32,
        path: Path,
    },
    /// `rmdir C V P`.
    Rmdir {
        client: u8,
        volume: u32,
        path: Path,
    },
    /// `rename C V P P`.
    Rename {
        client: u8,
        volume: u32,
        from: Path,
        to: Path,
    },
    /// `hardlink C V P P`: the file at the first path gets the second name.
    Hardlink {
        client: u8,
        volume: u32,
        from: Path,
        to: Path,
    },
    /// `read C V P`.
    Read {
        client: u8,
        volume: u32,
        path: Path,
    },
    /// `list C V P`.
    List {
        client: u8,
        volume: u32,
        path: Path,
    },
    /// `drain C V S` with `window W`, in seconds.
    Drain {
        client: u8,
        volume: u32,
        server: u8,
        window: Option<u64>,
    },
    /// `refresh C V S`.
    Refresh {
        client: u8,
        volume: u32,
        server: u8,
    },
    /// `giveup C V`.
    Giveup {
        client: u8,
        volume: u32,
    },
}

/// A line of a script. What a line leaves out is `None`: the reader puts in no default.
///
/// A client has a number of 1 to 255, a volume one of 1 to 2^32 - 1, a server one of 1 to 8.
#[derive(Debug, Drop)]
pub enum Line {
    /// `volume V on S ..` with `area M`, in MiB, of 1 to 64.
    Volume {
        volume: u32,
        servers: Servers,
        area: Option<u8>,
    },
    /// `client C cache N` with `area M`: the cache has 1 to 32,768 blocks.
    Client {
        client: u8,
        blocks: u32,
        area: Option<u8>,
    },
    /// `link C S strong`, `weak` or `down`.
    Link {
        client: u8,
        server: u8,
        strength: Strength,
    },
    /// `tick N`: at most 10^9 seconds.
    Tick {
        seconds: u32,
    },
    /// What a client does.
    Task(Task),
    /// `at T LINE`: what a client does in its thread of this number, from 1 to 8.
    At {
        thread: u8,
        task: Task,
    },
    /// `hoard add C V P PRIO` with `children` or `descendants`: the priority is of 1 to 1,000.
    HoardAdd {
        client: u8,
        volume: u32,
        path: Path,
        priority: u16,
        expansion: Expansion,
    },
    /// `hoard remove C V P`.
    HoardRemove {
        client: u8,
        volume: u32,
        path: Path,
    },
    /// `hoard clear C`.
    HoardClear {
        client: u8,
    },
    /// `hoard list C`.
    HoardList {
        client: u8,
    },
    /// `walk C V`.
    Walk {
        client: u8,
        volume: u32,
    },
    /// `send C V S` with `window W`, in seconds.
    Send {
        client: u8,
        volume: u32,
        server: u8,
        window: Option<u64>,
    },
    /// `deliver M`.
    Deliver {
        message: u64,
    },
    /// `lose M`.
    Lose {
        message: u64,
    },
    /// `trim M N`: the message keeps its first bytes, so many.
    Trim {
        message: u64,
        length: u64,
    },
    /// `breaks S V`.
    Breaks {
        server: u8,
        volume: u32,
    },
    /// `crash client C N`: the number chooses what the crash leaves on the disk.
    CrashClient {
        client: u8,
        choice: u64,
    },
    /// `crash replica S V N`: the number chooses what the crash leaves on the disk.
    CrashReplica {
        server: u8,
        volume: u32,
        choice: u64,
    },
    /// `recover client C`.
    RecoverClient {
        client: u8,
    },
    /// `recover replica S V`.
    RecoverReplica {
        server: u8,
        volume: u32,
    },
    /// `arm client C K`: the disk fails after so many calls.
    ArmClient {
        client: u8,
        passes: u64,
    },
    /// `arm replica S V K`: the disk fails after so many calls.
    ArmReplica {
        server: u8,
        volume: u32,
        passes: u64,
    },
    /// `resolve V S S ..`: two servers at least.
    Resolve {
        volume: u32,
        servers: Servers,
    },
    /// `repair V S P`.
    Repair {
        volume: u32,
        server: u8,
        path: Path,
    },
    /// `acl S V P WHO PLUS MINUS`: whom 0 is everybody, else it is a client.
    Acl {
        server: u8,
        volume: u32,
        path: Path,
        who: u8,
        plus: Rights,
        minus: Rights,
    },
    /// `clone S V`.
    Clone {
        server: u8,
        volume: u32,
    },
    /// `peek S V N P`.
    Peek {
        server: u8,
        volume: u32,
        number: u64,
        path: Path,
    },
    /// `unclone S V N`.
    Unclone {
        server: u8,
        volume: u32,
        number: u64,
    },
    /// `asr V SUFFIX longer` or `union`: the rule for files whose names end so.
    Asr {
        volume: u32,
        suffix: Name,
        rule: Rule,
    },
    /// `heal V P`.
    Heal {
        volume: u32,
        path: Path,
    },
    /// `show volume S V`.
    ShowVolume {
        server: u8,
        volume: u32,
    },
    /// `show log C V`.
    ShowLog {
        client: u8,
        volume: u32,
    },
    /// `show state C V`.
    ShowState {
        client: u8,
        volume: u32,
    },
}
