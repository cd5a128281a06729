// The gathering of replies, so that many are written in one call.
ghost use Rattle.std.specs.Prelude.{◌≤◌, vec_len};

use crate::status::Status;
use crate::writing::write_all;
use coda_io::{Sink, WriteFault};
use std::alloc::Global;

// The most bytes that are gathered.
const MOST: usize = 65536;

/// Replies that were gathered, in the order of their lines, and how many of their bytes the sink took.
#[derive(Drop)]
pub struct Gathered {
    bytes: Vec<u8>,
    taken: usize,
    ghost few: { vec_len bytes ≤ 65536 },
    ghost front: { taken ≤ vec_len bytes },
}

impl Gathered {
    ghost use Rattle.std.specs.Prelude.{◌≡◌, ◌≢◌, ℕ, ◌<◌, ◌≤◌, [], ◌++◌, length, take, OnOk, OnErr, MatchBool};
    ghost use Rattle.coda_io.specs.Faults.{Rose, HasCause};
    ghost use Rattle.coda_engine.specs.Gathering.{Forwards, Closes};
    ghost use Rattle.coda_engine.specs.Waiting.{waiting};

    /// No replies.
    pub fn new(alloc: Global) -> Gathered
        ensures { waiting result ≡ [] }
    {
        Gathered {
            bytes: Vec::new(alloc),
            taken: 0,
        }
    }

    /// Whether a reply waits to be written.
    pub fn waits(&self) -> bool
        ensures { MatchBool result (waiting self.now ≢ []) (waiting self.now ≡ []) }
    {
        self.taken < self.bytes.len()
    }

    // Whether there was room and memory for the text behind the replies; it is there then.
    fn gather(&mut self, text: &[u8]) -> bool
        ensures { MatchBool result (waiting self.new ≡ waiting self.old ++ text.now) (waiting self.new ≡ waiting self.old) }
    {
        text.len() <= MOST - self.bytes.len() && self.bytes.extend_from_slice(text).is_ok()
    }

    /// Writes all that waits, in as many calls as it takes, and in none where nothing waits.
    ///
    /// # Errors
    ///
    /// `WriteFault` where a call was refused or took nothing: what the sink didn't take waits on.
    pub fn flush<K: Sink>(&mut self, sink: &mut K) -> Result<(), WriteFault>
        ensures sent { Forwards (K.held sink.old) (K.held sink.new) (waiting self.old) (waiting self.new) [] }
        ensures ok { OnOk result (waiting self.new ≡ []) }
        ensures err { OnErr result (waiting self.new ≢ []) }
        ensures cause { HasCause (K.faults sink.old) (K.faults sink.new) result }
    {
        while self.taken < self.bytes.len() {
            let taken = sink.write(&self.bytes[self.taken..])?;
            if taken == 0 {
                return Err(WriteFault);
            }
            self.taken += taken;
        }
        self.bytes.clear();
        self.taken = 0;
        Ok(())
    }

    /// Takes a text behind what waits. What waits is written first where the text doesn't fit behind it, and the text goes
    /// straight on where it is longer than what can wait, or where there is no memory.
    ///
    /// # Errors
    ///
    /// `WriteFault` where a call was refused or took nothing: some of the text was taken then, but not all.
    pub fn add<K: Sink>(&mut self, text: &[u8], sink: &mut K) -> Result<(), WriteFault>
        ensures ok { OnOk result (Forwards (K.held sink.old) (K.held sink.new) (waiting self.old) (waiting self.new) text.now) }
        ensures err { OnErr result ((n : ℕ) × (n < length text.now) × Forwards (K.held sink.old) (K.held sink.new) (waiting self.old) (waiting self.new) (take n text.now)) }
        ensures cause { HasCause (K.faults sink.old) (K.faults sink.new) result }
    {
        if text.is_empty() || self.gather(text) {
            return Ok(());
        }
        self.flush(sink)?;
        if self.gather(text) {
            return Ok(());
        }
        write_all(sink, text)
    }

    /// Writes what waits where the run ends with this status, and answers how it ends then: a write that is refused makes
    /// it `SinkFault`, but for `Memory`, which stays. After a `SinkFault` nothing more is written, and nothing waits at a
    /// `BayFault`.
    pub fn close<K: Sink>(&mut self, status: Status, sink: &mut K) -> Status
        ensures sent { Forwards (K.held sink.old) (K.held sink.new) (waiting self.old) (waiting self.new) [] }
        ensures closes { Closes status (waiting self.old) (waiting self.new) result }
        ensures later { K.faults sink.old ≤ K.faults sink.new }
        ensures sink_fault { result ≡ Status.SinkFault → status ≢ Status.SinkFault → Rose (K.faults sink.old) (K.faults sink.new) }
    {
        match status {
            Status::SinkFault | Status::BayFault => status,
            Status::Memory => {
                let _ = self.flush(sink);
                Status::Memory
            }
            other => match self.flush(sink) {
                Ok(()) => other,
                Err(_) => Status::SinkFault,
            },
        }
    }
}
