//! A cell keeps the histories of its actors in journals: what a history leaves of a client or a replica, and what its
//! journal leaves, is one.
#![tactic(auto)]

ghost use Rattle.coda_matching.specs.Laws.{JournalsLeaveClients, JournalsLeaveReplicas};

/// A law of journals: one leaves the client that its history in a cell leaves. What the client holds is the same, and
/// each log is what cancellation leaves of the operations that are pending (Kistler and Satyanarayanan 1992).
pub fn journals_leave_clients()
    ensures { JournalsLeaveClients }
{}

/// A law of journals: one leaves the replica that its history in a cell leaves. A history has the operations of each
/// chunk as they were before cancellation, and a journal the records that were sent.
pub fn journals_leave_replicas()
    ensures { JournalsLeaveReplicas }
{}
