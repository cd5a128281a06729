// What holds of every client.
ghost use Rattle.coda_cell.specs.Alone.{AcceptedOperationsCertify, ClientsAloneMeetNoConflict};
ghost use Rattle.coda_cell.specs.Checks.{AcceptanceGoesByChecks};
ghost use Rattle.coda_cell.specs.Laws.{CachesStayInOrder, OperationsKeepHeldBound};
ghost use Rattle.coda_cell.specs.Orders.{RefusalsComeInOrder};

/// A law of clients: where the directory that a client takes for the parent of an object binds that object, for each that has
/// one, so it is after an operation of its own that the client accepts.
pub fn own_operations_keep_parents()
    ensures { OperationsKeepHeldBound }
{}

/// A law of clients: where what a client holds is a whole volume, certification there has nothing against an operation that the client
/// accepts, so that only another client's work can stand in its way.
pub fn accepted_operations_certify()
    ensures { AcceptedOperationsCertify }
{}

/// A law of clients: one that works alone never meets a conflict. Where a server has the volume that the client held when it accepted
/// the operations of a chunk, the chunk is applied (Kistler and Satyanarayanan 1992).
pub fn clients_alone_meet_no_conflict()
    ensures { ClientsAloneMeetNoConflict }
{}

/// A law of lines: one that names an actor that isn't there is refused for the leftmost of these, whatever else is wrong
/// with it; then a log isn't sent over a link that is down. An operation is refused for content that is too long, then
/// for the first check that refuses, and for a log that is full only where acceptance has nothing against it.
pub fn refusals_come_in_order()
    ensures { RefusalsComeInOrder }
{}

/// A law of operations: what is asked of a client goes by a list of checks, one list for each kind of ask. It is refused
/// for the first check that refuses, and where none does it is accepted. What each check looks at is said by itself, so
/// the lists are the order in which causes are named.
pub fn acceptance_goes_by_checks()
    ensures { AcceptanceGoesByChecks }
{}

/// A law of clients: what a client holds stays in order where an object that no record of its logs mentions is fetched again, or
/// dropped while no object is held below it. No such line is built yet: a client fetches what it doesn't hold, and drops nothing.
pub fn caches_stay_in_order()
    ensures { CachesStayInOrder }
{}
