// Where the threads of clients come by, so that a test can say in which order they go on.

/// A thread of a client, as a script names it. Elsewhere an actor is a client or a replica.
#[derive(Clone, Copy, Debug, PartialEq, Eq)]
pub struct Actor {
    /// The client, from 1 to 255.
    pub client: u8,
    /// The thread, from 1 to 8.
    pub thread: u8,
}

/// A step that a thread has just ended. It holds no turn there.
#[derive(Clone, Copy, Debug, PartialEq, Eq)]
pub enum Point {
    /// An operation came into the client's log.
    Logged,
    /// A chunk of the client's log was frozen.
    Frozen,
    /// A server answered the chunk.
    Decided,
    /// The answer came to the client's log.
    Settled,
}

/// A gate between the steps of threads. It changes nothing that a step sees, and says only when an actor goes on.
pub trait Gate {
    /// The actor is at the point. It goes on once the call returns.
    fn at(&self, actor: Actor, point: Point);
}

/// The gate of the program itself, which returns at once.
#[derive(Clone, Copy, Debug, PartialEq, Eq)]
pub struct RealGate;

impl Gate for RealGate {
    fn at(&self, _actor: Actor, _point: Point) {}
}
