// Bytes that are read as a message, as the entries of a client, or as an entry of a replica.
use crate::texts::{bytes, put};
use coda_fid::Bytes;
use coda_record::{RecordFault, read_client, read_replica, write_client, write_replica};
use coda_wire::{WireFault, read, write};
use std::alloc::{AllocError, Global};

// Puts whether what was read is written as it was.
fn put_written(written: Result<Bytes, AllocError>, bytes: &[u8], out: &mut String) {
    match written {
        Ok(written) if written.bytes() == bytes => put(out, "written so"),
        _ => put(out, "written otherwise"),
    }
}

// Puts the place where bytes are wrong.
fn put_fault(fault: RecordFault, out: &mut String) {
    match fault {
        RecordFault::BadRecord(place) => {
            let _ = write!(out, "wrong at {place}");
        }
        RecordFault::Memory => put(out, "no memory"),
    }
}

/// `message BYTES`.
pub fn put_message(alloc: Global, call: &str, out: &mut String) {
    let bytes = bytes(alloc, call, 1);
    match read(alloc, &bytes) {
        Ok(message) => put_written(write(alloc, &message), &bytes, out),
        Err(WireFault::BadMessage(place)) => put_fault(RecordFault::BadRecord(place), out),
        Err(WireFault::Memory) => put_fault(RecordFault::Memory, out),
    }
}

/// `fields BYTES`: the debug text of the message.
pub fn put_fields(alloc: Global, call: &str, out: &mut String) {
    let message = read(alloc, &bytes(alloc, call, 1));
    let _ = write!(out, "{message:?}");
}

/// `client BYTES`.
pub fn put_client(alloc: Global, call: &str, out: &mut String) {
    let bytes = bytes(alloc, call, 1);
    match read_client(alloc, &bytes) {
        Ok(entries) => put_written(write_client(alloc, &entries), &bytes, out),
        Err(fault) => put_fault(fault, out),
    }
}

/// `replica BYTES`.
pub fn put_replica(alloc: Global, call: &str, out: &mut String) {
    let bytes = bytes(alloc, call, 1);
    match read_replica(alloc, &bytes) {
        Ok(entry) => put_written(write_replica(alloc, &entry), &bytes, out),
        Err(fault) => put_fault(fault, out),
    }
}
