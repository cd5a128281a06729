// Why a line isn't carried out.
ghost use Rattle.std.specs.Prelude.{◌≡◌, Some};
ghost use Rattle.coda_script.specs.Refusals.{number_of_refusal, refusal_name};

use std::fmt;

/// Why a line isn't carried out. It shows as its name, in lower case with dashes; its number stands before it in a
/// reply, and what it names behind it.
#[derive(Clone, Copy, Debug, PartialEq, Eq)]
pub enum Refusal {
    /// The bytes are no name and no path.
    BadName,
    /// A word of a line is none.
    BadWord,
    /// A name of the path isn't bound.
    NotFound,
    /// A name of the path stands under an object that is no directory.
    NotDir,
    /// The log has as many records, or as much of them, as it may.
    LogFull,
    /// The log has no record to send or to hand out.
    Nothing,
    /// The first records of the log are younger than the window: their age, and the window.
    Young,
    /// A chunk is frozen: its number, and the server that it is for.
    Frozen,
    /// No chunk is frozen, where a verdict came for the one of this number.
    NotFrozen,
    /// Another chunk is frozen: its number, and that of the verdict.
    WrongNumber,
    /// The bytes are no entry.
    BadRecord,
    /// The bytes are no message.
    BadMessage,
    /// The journal has no room for the entry.
    JournalFull,
    /// The disk is another's: the offset of the first byte that says so.
    Foreign,
    /// The cache has no room: the blocks that stay, those needed, and all there are.
    CacheFull,
    /// No hoard entry has the path.
    NoEntry,
    /// The hoard database has as many entries as it may.
    HdbFull,
    /// The name is bound.
    Exists,
    /// The object is a directory.
    IsDir,
    /// The directory binds something.
    NotEmpty,
    /// The object would come to stand below itself.
    Loop,
    /// The object isn't cached and can't be fetched.
    Miss,
    /// The actor is down.
    Down,
    /// The object is marked as in conflict, or its replicas are.
    InConflict,
    /// The content is longer than a file may be: its length.
    TooBig,
    /// The chunk isn't the next one.
    Behind,
    /// The chunk was decided before.
    Old,
    /// The object isn't marked as in conflict.
    NotMarked,
    /// A replica that is needed is down: its server.
    Unreachable,
    /// No such message is in the pool: its number.
    NoMessage,
    /// The link between the client and the server is down.
    LinkDown,
    /// No such client, volume or server was made: its number.
    NoSuchActor,
    /// Such a client or volume was made before.
    AlreadyThere,
    /// The line isn't in the grammar.
    BadLine,
    /// There are too many lines.
    TooMany,
    /// Another one holds the turn.
    Busy,
    /// The cell has as many clients or volumes, or as much disk, as it may.
    CellFull,
    /// A call of the disk failed.
    DiskFault,
    /// Another round is needed, after so many.
    Again,
    /// The object has to be fetched first.
    Need,
    /// The object is no file.
    NotFile,
}

impl Refusal {
    /// The refusal's number.
    pub fn number(self) -> u8
        ensures { result ≡ number_of_refusal self }
    {
        match self {
            Refusal::BadName => 1,
            Refusal::BadWord => 2,
            Refusal::NotFound => 3,
            Refusal::NotDir => 4,
            Refusal::LogFull => 5,
            Refusal::Nothing => 6,
            Refusal::Young => 7,
            Refusal::Frozen => 8,
            Refusal::NotFrozen => 9,
            Refusal::WrongNumber => 10,
            Refusal::BadRecord => 11,
            Refusal::BadMessage => 12,
            Refusal::JournalFull => 13,
            Refusal::Foreign => 14,
            Refusal::CacheFull => 15,
            Refusal::NoEntry => 16,
            Refusal::HdbFull => 17,
            Refusal::Exists => 18,
            Refusal::IsDir => 19,
            Refusal::NotEmpty => 20,
            Refusal::Loop => 21,
            Refusal::Miss => 22,
            Refusal::Down => 23,
            Refusal::InConflict => 24,
            Refusal::TooBig => 25,
            Refusal::Behind => 26,
            Refusal::Old => 27,
            Refusal::NotMarked => 28,
            Refusal::Unreachable => 29,
            Refusal::NoMessage => 30,
            Refusal::LinkDown => 31,
            Refusal::NoSuchActor => 32,
            Refusal::AlreadyThere => 33,
            Refusal::BadLine => 34,
            Refusal::TooMany => 35,
            Refusal::Busy => 36,
            Refusal::CellFull => 40,
            Refusal::DiskFault => 41,
            Refusal::Again => 42,
            Refusal::Need => 43,
            Refusal::NotFile => 44,
        }
    }
}

impl fmt::Display for Refusal {
    ghost output = { λ refusal. Some (refusal_name refusal) };

    fn fmt<W: fmt::Write>(&self, f: &mut fmt::Formatter<W>) -> fmt::Result {
        f.write_str(match self {
            Refusal::BadName => "bad-name",
            Refusal::BadWord => "bad-word",
            Refusal::NotFound => "not-found",
            Refusal::NotDir => "not-dir",
            Refusal::LogFull => "log-full",
            Refusal::Nothing => "nothing",
            Refusal::Young => "young",
            Refusal::Frozen => "frozen",
            Refusal::NotFrozen => "not-frozen",
            Refusal::WrongNumber => "wrong-number",
            Refusal::BadRecord => "bad-record",
            Refusal::BadMessage => "bad-message",
            Refusal::JournalFull => "journal-full",
            Refusal::Foreign => "foreign",
            Refusal::CacheFull => "cache-full",
            Refusal::NoEntry => "no-entry",
            Refusal::HdbFull => "hdb-full",
            Refusal::Exists => "exists",
            Refusal::IsDir => "is-dir",
            Refusal::NotEmpty => "not-empty",
            Refusal::Loop => "loop",
            Refusal::Miss => "miss",
            Refusal::Down => "down",
            Refusal::InConflict => "in-conflict",
            Refusal::TooBig => "too-big",
            Refusal::Behind => "behind",
            Refusal::Old => "old",
            Refusal::NotMarked => "not-marked",
            Refusal::Unreachable => "unreachable",
            Refusal::NoMessage => "no-message",
            Refusal::LinkDown => "link-down",
            Refusal::NoSuchActor => "no-such-actor",
            Refusal::AlreadyThere => "already-there",
            Refusal::BadLine => "bad-line",
            Refusal::TooMany => "too-many",
            Refusal::Busy => "busy",
            Refusal::CellFull => "cell-full",
            Refusal::DiskFault => "disk-fault",
            Refusal::Again => "again",
            Refusal::Need => "need",
            Refusal::NotFile => "not-file",
        })
    }
}
