//! Where the objects are bound that a client's log creates, that no server has what it hasn't been sent, and that an
//! object keeps the kind with which it was made.
#![tactic(auto)]

ghost use Rattle.coda_creations.specs.Places.{AcceptedRemovalsAreInPlace, ObjectsStayWhereCreated};
ghost use Rattle.coda_creations.specs.Places.{UnmovedRemovalsAreInPlace, LogsStayInPlace, DecisionsBringCreations};
ghost use Rattle.coda_creations.specs.Places.{ReplicasHaveWhatWasBrought, ChunksAndTailsCreateApart};
ghost use Rattle.coda_creations.specs.Places.{ServersLackWhatTailsCreate};
ghost use Rattle.coda_creations.specs.Kinds.{DecisionsKeepKinds, ReplicasKeepKinds, ClientsKeepKinds, LinesKeepKinds};
ghost use Rattle.coda_creations.specs.Kinds.{ObjectsKeepTheirKind};

/// A law of acceptance: where a client's cached directories bind what its log created only where the log created it, a
/// removal that is accepted is from there, if it undoes the creation or nothing moved the object.
pub fn accepted_removals_are_in_place()
    ensures { AcceptedRemovalsAreInPlace }
{}

/// A law of cached directories: an operation that creates something unseen, a fetch of a node that binds nothing which
/// the log creates, and a drop leave what the log created bound only where it was created.
pub fn objects_stay_where_created()
    ensures { ObjectsStayWhereCreated }
{}

/// A law of thaws: where each removal of a chunk and its tail is from where the object was created, unless it was
/// moved, and each creation is of something new, the tail undoes creations where they were made as it is added to the
/// chunk.
pub fn unmoved_removals_are_in_place()
    ensures { UnmovedRemovalsAreInPlace }
{}

/// A law of logs: each creation of a log is of something new, what it created and didn't move is bound only where it
/// was created, and is removed only from there, through operations, fetches, drops, freezes, applied chunks and
/// conflicts; so a tail that comes back to its chunk removes in place.
pub fn logs_stay_in_place()
    ensures { LogsStayInPlace }
{}

/// A law of decisions: what a server's volume has or binds behind the decision of a chunk, it had or bound before, or
/// an operation of the chunk's span created it.
pub fn decisions_bring_creations()
    ensures { DecisionsBringCreations }
{}

/// A law of replicas: what a replica has or binds is the root of its volume, or an entry of its history brought it: a
/// chunk that was applied and creates it, or a resolution that left it.
pub fn replicas_have_what_was_brought()
    ensures { ReplicasHaveWhatWasBrought }
{}

/// A law of logs: where a client numbers what it creates, the tail behind a frozen chunk that met no conflict doesn't
/// create what the chunk creates, whatever the client did since.
pub fn chunks_and_tails_create_apart()
    ensures { ChunksAndTailsCreateApart }
{}

/// A law of cells: no server has or binds what the tail of a client's log creates, nor what a chunk creates that the
/// server didn't apply; in histories without resolutions.
pub fn servers_lack_what_tails_create()
    ensures { ServersLackWhatTailsCreate }
{}

/// A law of decisions: what a server's volume has at a fid behind the decision of a chunk is of the kind, file, link or
/// directory, of what it had there, or an operation of the chunk's span created it of this kind.
pub fn decisions_keep_kinds()
    ensures { DecisionsKeepKinds }
{}

/// A law of replicas: what a replica has at a fid behind any entries of its history is of the kind of what it had
/// there, or was brought of this kind. Where nothing was taken over, it is of the kind with which its client made it; so
/// the replicas of a volume agree on it.
pub fn replicas_keep_kinds()
    ensures { ReplicasKeepKinds }
{}

/// A law of clients: behind an operation that a client accepts, a fetch or a drop, what it holds at a fid is of the
/// kind of what it held there, or the operation created it of this kind, or it is the node that was fetched.
pub fn clients_keep_kinds()
    ensures { ClientsKeepKinds }
{}

/// A law of lines: whatever a client or a replica has at a fid is of the kind with which the one operation that created
/// the fid made it, and a volume's root is a directory; each line keeps it so, also one that is stopped. So a replica's
/// node may come in the place of the one that a client holds, as `caches_stay_in_order` asks.
pub fn lines_keep_kinds()
    ensures { LinesKeepKinds }
{}

/// A law of cells: an object keeps its kind. In each cell to which lines lead, what a client holds at a fid and what
/// the replica of its volume has there are both files, both links or both directories.
pub fn objects_keep_their_kind()
    ensures { ObjectsKeepTheirKind }
{}
