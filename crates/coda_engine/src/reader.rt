// The reading of a script: what stands before a newline at once, and else byte by byte.
ghost use Rattle.std.specs.Prelude.{◌≡◌, ◌≤◌, ℕ, ◌+◌, List, [], length, take, IfOk, IfErr, OnOk, Err};
ghost use Rattle.coda_engine.specs.Lines.{HasNoNewline};
ghost use Rattle.std.specs.Str.Lines.{strip_carriage_return};
ghost use Rattle.coda_io.specs.Faults.{Rose};
ghost use Rattle.coda_engine.specs.Gathering.{Forwards, LineHalts};
ghost use Rattle.coda_engine.specs.Machine.{IsStopped, Leaves};
ghost use Rattle.coda_engine.specs.Waiting.{waiting};

use crate::gathering::Gathered;
use crate::machine::{LineStop, Machine};
use crate::status::Status;
use coda_io::Sink;
use std::alloc::{AllocError, Global};

const NEWLINE: u8 = 10;

const CARRIAGE_RETURN: u8 = 13;

const MAX_BYTES: u32 = 16777216;

const MAX_LINES: u32 = 200000;

/// A script as far as it was read: the line under way, and how many lines and bytes came before.
#[derive(Drop)]
pub struct Reader {
    alloc: Global,
    pending: Vec<u8>,
    lines: u32,
    bytes: u32,
    ghost counted: { lines ≤ bytes },
    ghost few: { bytes ≤ 16777216 },
}

// How many bytes stand before the first newline.
fn front_of(bytes: &[u8]) -> usize
    ensures within { result ≤ length bytes.now }
    ensures front { HasNoNewline (take result bytes.now) }
{
    let mut count = 0;
    while count < bytes.len() && bytes[count] != NEWLINE {
        count += 1;
    }
    count
}

// The line without the carriage return at its end.
fn without_carriage_return(line: &[u8]) -> &[u8]
    ensures { result.now ≡ strip_carriage_return line.now }
{
    match line {
        [front @ .., CARRIAGE_RETURN] => front,
        _ => line,
    }
}

// Runs a line. Where it may ask the bay, what was gathered is written before.
fn answer_of<M: Machine, K: Sink>(
    alloc: Global,
    machine: &mut M,
    line: &[u8],
    gathered: &mut Gathered,
    sink: &mut K,
) -> Result<Vec<u8>, LineStop>
    requires { (lines : ℕ) × (lines ≤ 16777216) × M.ready machine.old lines }
    ensures ready { OnOk result ((lines : ℕ) → M.ready machine.old lines → M.ready machine.new (lines + 1)) }
    ensures sent { Forwards (K.held sink.old) (K.held sink.new) (waiting gathered.old) (waiting gathered.new) [] }
    ensures ok { IfOk result (λ text. (outside : List (List ℕ)) × M.gives machine.old line.now text.items outside machine.new) }
    ensures stops { IfErr result (IsStopped M.refuses M.breaks (waiting gathered.new) machine.old machine.new line.now) }
    ensures later { K.faults sink.old ≤ K.faults sink.new }
    ensures sink_fault { result ≡ Err LineStop.Unwritten → Rose (K.faults sink.old) (K.faults sink.new) }
    ensures bay_later { M.faults machine.old ≤ M.faults machine.new }
    ensures follows { M.follows machine.old machine.new }
    ensures bay_fault { result ≡ Err LineStop.Bay → Rose (M.faults machine.old) (M.faults machine.new) }
{
    match machine.run(alloc, line, gathered.waits()) {
        Err(LineStop::Unwritten) => match gathered.flush(sink) {
            Ok(()) => machine.run(alloc, line, false),
            Err(_) => Err(LineStop::Unwritten),
        },
        answer => answer,
    }
}

// Runs a line, and its reply comes behind those that were gathered.
fn run_line<M: Machine, K: Sink>(
    alloc: Global,
    machine: &mut M,
    number: u32,
    line: &[u8],
    gathered: &mut Gathered,
    sink: &mut K,
) -> Result<(), Status>
    requires { (lines : ℕ) × (lines ≤ 16777216) × M.ready machine.old lines }
    ensures ready { OnOk result ((lines : ℕ) → M.ready machine.old lines → M.ready machine.new (lines + 1)) }
    ensures ok { OnOk result ((text : List ℕ) × (answered : List (List ℕ)) × Forwards (K.held sink.old) (K.held sink.new) (waiting gathered.old) (waiting gathered.new) text
        × M.gives machine.old line.now text answered machine.new) }
    ensures stops { IfErr result (λ status. (end : M) × LineHalts M.gives M.refuses (K.held sink.old) (K.held sink.new) (waiting gathered.old) (waiting gathered.new) machine.old end line.now number status × Leaves M.breaks end machine.new status) }
    ensures later { K.faults sink.old ≤ K.faults sink.new }
    ensures sink_fault { result ≡ Err Status.SinkFault → Rose (K.faults sink.old) (K.faults sink.new) }
    ensures bay_later { M.faults machine.old ≤ M.faults machine.new }
    ensures follows { M.follows machine.old machine.new }
    ensures bay_fault { result ≡ Err Status.BayFault → Rose (M.faults machine.old) (M.faults machine.new) }
{
    match answer_of(alloc, machine, line, gathered, sink) {
        Ok(text) => match gathered.add(&text, sink) {
            Ok(()) => Ok(()),
            Err(_) => Err(Status::SinkFault),
        },
        Err(LineStop::Refused(fault)) => Err(Status::Script {
            line: number,
            column: fault.column,
            kind: fault.kind,
        }),
        Err(LineStop::Unwritten) => Err(Status::SinkFault),
        Err(LineStop::Bay) => Err(Status::BayFault),
        Err(LineStop::Memory) => Err(Status::Memory),
    }
}

impl Reader {
    ghost use Rattle.std.specs.Prelude.{◌≡◌, ◌<◌, ◌≤◌, ◌+◌, ◌-◌, min, ◌∷◌, ◌++◌, [], length, take, IfOk, IfErr, OnOk, Err, IsErrOf, MatchBool};
    ghost use Rattle.coda_engine.specs.Lines.{HasNoNewline};
    ghost use Rattle.coda_io.specs.Faults.{Rose};
    ghost use Rattle.coda_engine.specs.Reading.{HasRoom, IsFull, Advances, Stops, Ends};
    ghost use Rattle.coda_engine.specs.Gathering.{Gathers, Halts};
    ghost use Rattle.coda_engine.specs.Machine.{Leaves};
    ghost use Rattle.coda_engine.specs.Place.{place};
    ghost use Rattle.coda_engine.specs.Waiting.{waiting};

    /// A reader at the start of a script.
    pub fn new(alloc: Global) -> Reader
        ensures pending { result.pending.items ≡ [] }
        ensures lines { result.lines ≡ 0 }
        ensures bytes { result.bytes ≡ 0 }
    {
        Reader {
            alloc,
            pending: Vec::new(alloc),
            lines: 0,
            bytes: 0,
        }
    }

    /// How many bytes the run may read into a buffer of this length: all that it holds, but none behind the first byte that
    /// passes the limit.
    pub fn room(&self, len: usize) -> usize
        requires { 0 < len }
        ensures most { result ≡ min len (16777217 - self.now.bytes) }
        ensures some { 0 < result }
        ensures within { result ≤ len }
        ensures few { self.now.bytes + result ≤ 16777217 }
    {
        len.min((MAX_BYTES - self.bytes) as usize + 1)
    }

    // Whether a byte more passes a limit.
    fn is_full(&self) -> bool
        ensures { MatchBool result (IsFull self.now.pending.items self.now.lines self.now.bytes) (HasRoom self.now.pending.items self.now.lines self.now.bytes) }
    {
        self.bytes >= MAX_BYTES || (self.pending.is_empty() && self.lines >= MAX_LINES)
    }

    // Runs the line under way, which a newline ends.
    fn end_line<M: Machine, K: Sink>(
        &mut self,
        machine: &mut M,
        gathered: &mut Gathered,
        sink: &mut K,
    ) -> Result<(), Status>
        requires room { HasRoom self.old.pending.items self.old.lines self.old.bytes }
        requires ready { M.ready machine.old self.old.lines }
        ensures ready { OnOk result (M.ready machine.new self.new.lines) }
        ensures ok { OnOk result (Gathers M.gives (K.held sink.old) (K.held sink.new) (waiting gathered.old) (waiting gathered.new) (place machine.old self.old) (10 ∷ []) (place machine.new self.new)) }
        ensures stops { IfErr result (λ status. (end : M) × Halts M.gives M.refuses (K.held sink.old) (K.held sink.new) (waiting gathered.old) (waiting gathered.new) (place machine.old self.old) end (10 ∷ []) status × Leaves M.breaks end machine.new status) }
        ensures later { K.faults sink.old ≤ K.faults sink.new }
        ensures sink_fault { result ≡ Err Status.SinkFault → Rose (K.faults sink.old) (K.faults sink.new) }
        ensures bay_later { M.faults machine.old ≤ M.faults machine.new }
        ensures follows { M.follows machine.old machine.new }
        ensures bay_fault { result ≡ Err Status.BayFault → Rose (M.faults machine.old) (M.faults machine.new) }
    {
        let line = without_carriage_return(&self.pending);
        run_line(self.alloc, machine, self.lines + 1, line, gathered, sink)?;
        self.pending.clear();
        self.bytes += 1;
        self.lines += 1;
        Ok(())
    }

    // Takes one byte.
    fn take_byte<M: Machine, K: Sink>(
        &mut self,
        machine: &mut M,
        byte: u8,
        gathered: &mut Gathered,
        sink: &mut K,
    ) -> Result<(), Status>
        requires { M.ready machine.old self.old.lines }
        ensures ready { OnOk result (M.ready machine.new self.new.lines) }
        ensures ok { OnOk result (Gathers M.gives (K.held sink.old) (K.held sink.new) (waiting gathered.old) (waiting gathered.new) (place machine.old self.old) (byte ∷ []) (place machine.new self.new)) }
        ensures stops { IfErr result (λ status. (end : M) × Halts M.gives M.refuses (K.held sink.old) (K.held sink.new) (waiting gathered.old) (waiting gathered.new) (place machine.old self.old) end (byte ∷ []) status × Leaves M.breaks end machine.new status) }
        ensures later { K.faults sink.old ≤ K.faults sink.new }
        ensures sink_fault { result ≡ Err Status.SinkFault → Rose (K.faults sink.old) (K.faults sink.new) }
        ensures bay_later { M.faults machine.old ≤ M.faults machine.new }
        ensures follows { M.follows machine.old machine.new }
        ensures bay_fault { result ≡ Err Status.BayFault → Rose (M.faults machine.old) (M.faults machine.new) }
    {
        if self.is_full() {
            return Err(Status::TooLong);
        }
        if byte == NEWLINE {
            return self.end_line(machine, gathered, sink);
        }
        if self.pending.push(byte).is_err() {
            return Err(Status::Memory);
        }
        self.bytes += 1;
        Ok(())
    }

    // How many bytes in front of these the line under way takes at once: none of them is a newline, and none passes a limit.
    fn fitting(&self, bytes: &[u8]) -> usize
        ensures within { result ≤ length bytes.now }
        ensures front { HasNoNewline (take result bytes.now) }
        ensures room { self.now.bytes + result ≤ 16777216 }
        ensures count { 0 < result → self.now.pending.items ≡ [] → self.now.lines < 200000 }
    {
        if self.is_full() {
            return 0;
        }
        front_of(bytes).min((MAX_BYTES - self.bytes) as usize)
    }

    // Takes bytes of the line under way.
    fn take_front(&mut self, front: &[u8]) -> Result<(), AllocError>
        requires room { self.old.bytes + length front.now ≤ 16777216 }
        ensures pending { OnOk result (self.new.pending.items ≡ self.old.pending.items ++ front.now) }
        ensures bytes { OnOk result (self.new.bytes ≡ self.old.bytes + length front.now) }
        ensures lines { self.new.lines ≡ self.old.lines }
    {
        self.pending.extend_from_slice(front)?;
        self.bytes += front.len() as u32;
        Ok(())
    }

    // Takes what is next of a piece of the script, and answers how many bytes that was: those in front of a newline that fit, or one.
    fn take_next<M: Machine, K: Sink>(
        &mut self,
        machine: &mut M,
        piece: &[u8],
        gathered: &mut Gathered,
        sink: &mut K,
    ) -> Result<usize, Status>
        requires some { 0 < length piece.now }
        requires ready { M.ready machine.old self.old.lines }
        ensures some { IfOk result (λ count. 0 < count) }
        ensures within { IfOk result (λ count. count ≤ length piece.now) }
        ensures ready { OnOk result (M.ready machine.new self.new.lines) }
        ensures ok { IfOk result (λ count. Gathers M.gives (K.held sink.old) (K.held sink.new) (waiting gathered.old) (waiting gathered.new) (place machine.old self.old) (take count piece.now) (place machine.new self.new)) }
        ensures stops { IfErr result (λ status. (end : M) × Halts M.gives M.refuses (K.held sink.old) (K.held sink.new) (waiting gathered.old) (waiting gathered.new) (place machine.old self.old) end piece.now status × Leaves M.breaks end machine.new status) }
        ensures later { K.faults sink.old ≤ K.faults sink.new }
        ensures sink_fault { IsErrOf result Status.SinkFault → Rose (K.faults sink.old) (K.faults sink.new) }
        ensures bay_later { M.faults machine.old ≤ M.faults machine.new }
        ensures follows { M.follows machine.old machine.new }
        ensures bay_fault { IsErrOf result Status.BayFault → Rose (M.faults machine.old) (M.faults machine.new) }
    {
        let count = self.fitting(piece);
        if count == 0 {
            self.take_byte(machine, piece[0], gathered, sink)?;
            return Ok(1);
        }
        match self.take_front(&piece[..count]) {
            Ok(()) => Ok(count),
            Err(_) => Err(Status::Memory),
        }
    }

    // Takes a piece of the script, and runs each line as soon as its newline comes.
    fn take<M: Machine, K: Sink>(
        &mut self,
        machine: &mut M,
        piece: &[u8],
        gathered: &mut Gathered,
        sink: &mut K,
    ) -> Result<(), Status>
        requires { M.ready machine.old self.old.lines }
        ensures ready { OnOk result (M.ready machine.new self.new.lines) }
        ensures ok { OnOk result (Gathers M.gives (K.held sink.old) (K.held sink.new) (waiting gathered.old) (waiting gathered.new) (place machine.old self.old) piece.now (place machine.new self.new)) }
        ensures stops { IfErr result (λ status. (end : M) × Halts M.gives M.refuses (K.held sink.old) (K.held sink.new) (waiting gathered.old) (waiting gathered.new) (place machine.old self.old) end piece.now status × Leaves M.breaks end machine.new status) }
        ensures later { K.faults sink.old ≤ K.faults sink.new }
        ensures sink_fault { result ≡ Err Status.SinkFault → Rose (K.faults sink.old) (K.faults sink.new) }
        ensures bay_later { M.faults machine.old ≤ M.faults machine.new }
        ensures follows { M.follows machine.old machine.new }
        ensures bay_fault { result ≡ Err Status.BayFault → Rose (M.faults machine.old) (M.faults machine.new) }
    {
        let mut at = 0;
        while at < piece.len() {
            at += self.take_next(machine, &piece[at..], gathered, sink)?;
        }
        Ok(())
    }

    /// Takes a piece of the script, runs each line as soon as its newline comes, and writes the replies.
    ///
    /// # Errors
    ///
    /// The status that ends the run: `Script`, `SinkFault`, `BayFault`, `TooLong` or `Memory`.
    pub fn feed<M: Machine, K: Sink>(
        &mut self,
        machine: &mut M,
        piece: &[u8],
        sink: &mut K,
    ) -> Result<(), Status>
        requires { M.ready machine.old self.old.lines }
        ensures ready { OnOk result (M.ready machine.new self.new.lines) }
        ensures ok { OnOk result (Advances M.gives (K.held sink.old) (K.held sink.new) (place machine.old self.old) piece.now (place machine.new self.new)) }
        ensures stops { IfErr result (λ status. (end : M) × Stops M.gives M.refuses 65536 (K.held sink.old) (K.held sink.new) (place machine.old self.old) end piece.now status × Leaves M.breaks end machine.new status) }
        ensures later { K.faults sink.old ≤ K.faults sink.new }
        ensures sink_fault { result ≡ Err Status.SinkFault → Rose (K.faults sink.old) (K.faults sink.new) }
        ensures bay_later { M.faults machine.old ≤ M.faults machine.new }
        ensures follows { M.follows machine.old machine.new }
        ensures bay_fault { result ≡ Err Status.BayFault → Rose (M.faults machine.old) (M.faults machine.new) }
    {
        let mut gathered = Gathered::new(self.alloc);
        match self.take(machine, piece, &mut gathered, sink) {
            Ok(()) => match gathered.flush(sink) {
                Ok(()) => Ok(()),
                Err(_) => Err(Status::SinkFault),
            },
            Err(status) => Err(gathered.close(status, sink)),
        }
    }

    /// Ends the script: runs a last line that has no newline, and writes its reply.
    pub fn finish<M: Machine, K: Sink>(self, machine: &mut M, sink: &mut K) -> Status
        requires { M.ready machine.old self.lines }
        ensures ends { (end : M) × Ends M.gives M.refuses (K.held sink.old) (K.held sink.new) (place machine.old self) end result × Leaves M.breaks end machine.new result }
        ensures no_source_fault { result ≡ Status.SourceFault → ⊥ }
        ensures later { K.faults sink.old ≤ K.faults sink.new }
        ensures sink_fault { result ≡ Status.SinkFault → Rose (K.faults sink.old) (K.faults sink.new) }
        ensures bay_later { M.faults machine.old ≤ M.faults machine.new }
        ensures follows { M.follows machine.old machine.new }
        ensures bay_fault { result ≡ Status.BayFault → Rose (M.faults machine.old) (M.faults machine.new) }
    {
        let line = self.pending.as_slice();
        if line.is_empty() {
            return Status::Done;
        }
        let mut gathered = Gathered::new(self.alloc);
        match run_line(
            self.alloc,
            machine,
            self.lines + 1,
            line,
            &mut gathered,
            sink,
        ) {
            Ok(()) => gathered.close(Status::Done, sink),
            Err(status) => status,
        }
    }
}
