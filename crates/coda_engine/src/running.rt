// The run of a script.
ghost use Rattle.std.specs.Prelude.{◌≡◌, ◌<◌, ◌≤◌, ℕ, List, vec_len, length, IfOk};
ghost use Rattle.coda_io.specs.Faults.{Rose};
ghost use Rattle.coda_engine.specs.Machine.{Leaves};
ghost use Rattle.coda_engine.specs.Run.{Reports};

use crate::machine::Machine;
use crate::reader::Reader;
use crate::status::Status;
use coda_io::{Sink, Source};
use std::alloc::{AllocError, Global};

const PIECE: usize = 65536;

// A buffer of this length. Its caller sees the length alone.
fn buffer_of(alloc: Global, len: usize) -> Result<Vec<u8>, AllocError>
    ensures { IfOk result (λ buffer. vec_len buffer ≡ len) }
{
    vec![in alloc; 0u8; len]
}

// Runs the script that the source gives, read in pieces of at most the buffer's length.
fn run_pieces<M: Machine, S: Source, K: Sink>(
    alloc: Global,
    machine: &mut M,
    buffer: &mut [u8],
    source: &mut S,
    sink: &mut K,
) -> Status
    requires some { 0 < length buffer.old }
    requires ready { M.ready machine.old 0 }
    ensures report { (outside : List (List ℕ)) × (end : M) × Reports M.gives M.refuses machine.old end (S.left source.old) (S.left source.new) (K.held sink.old) (K.held sink.new) outside result × Leaves M.breaks end machine.new result }
    ensures source_fault { result ≡ Status.SourceFault → Rose (S.faults source.old) (S.faults source.new) }
    ensures sink_fault { result ≡ Status.SinkFault → Rose (K.faults sink.old) (K.faults sink.new) }
    ensures source_later { S.faults source.old ≤ S.faults source.new }
    ensures sink_later { K.faults sink.old ≤ K.faults sink.new }
    ensures bay_fault { result ≡ Status.BayFault → Rose (M.faults machine.old) (M.faults machine.new) }
    ensures bay_later { M.faults machine.old ≤ M.faults machine.new }
    ensures follows { M.follows machine.old machine.new }
{
    let mut reader = Reader::new(alloc);
    loop {
        let room = reader.room(buffer.len());
        let window = &mut buffer[..room];
        let count = match source.read(window) {
            Ok(0) => return reader.finish(machine, sink),
            Ok(count) => count,
            Err(_) => return Status::SourceFault,
        };
        match reader.feed(machine, &window[..count], sink) {
            Ok(()) => {}
            Err(status) => return status,
        }
    }
}

/// Runs the script that the source gives over a machine, and writes the replies to the sink.
///
/// The status says how the run ended, and what was read, run and written then; `Usage` is never answered. The machine is
/// left in the state that it was in after the last line that ran; at `BayFault` in what the line at fault made of that one.
/// Of `Memory` that isn't said.
pub fn run<M: Machine, S: Source, K: Sink>(
    alloc: Global,
    machine: &mut M,
    source: &mut S,
    sink: &mut K,
) -> Status
    requires { M.ready machine.old 0 }
    ensures report { (outside : List (List ℕ)) × (end : M) × Reports M.gives M.refuses machine.old end (S.left source.old) (S.left source.new) (K.held sink.old) (K.held sink.new) outside result × Leaves M.breaks end machine.new result }
    ensures source_fault { result ≡ Status.SourceFault → Rose (S.faults source.old) (S.faults source.new) }
    ensures sink_fault { result ≡ Status.SinkFault → Rose (K.faults sink.old) (K.faults sink.new) }
    ensures source_later { S.faults source.old ≤ S.faults source.new }
    ensures sink_later { K.faults sink.old ≤ K.faults sink.new }
    ensures bay_fault { result ≡ Status.BayFault → Rose (M.faults machine.old) (M.faults machine.new) }
    ensures bay_later { M.faults machine.old ≤ M.faults machine.new }
    ensures follows { M.follows machine.old machine.new }
{
    match buffer_of(alloc, PIECE) {
        Ok(mut buffer) => run_pieces(alloc, machine, &mut buffer, source, sink),
        Err(_) => Status::Memory,
    }
}
