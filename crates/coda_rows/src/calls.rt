// Calls on what no script reaches: bytes that are read and written, generated scripts, and disks that are files.
mod files;
mod generated;
mod spelled;

use crate::calls::files::put_reached;
use crate::texts::{named, put, word};
use std::fs;

#[derive(Clone, Copy)]
enum Call {
    Lines,
    Digest,
    Message,
    Fields,
    Client,
    Replica,
    Clear,
    Folder,
    File,
    Remove,
    Sealed,
    Left,
}

// By the first word.
const CALLS: &[(&str, Call)] = &[
    ("lines", Call::Lines),
    ("digest", Call::Digest),
    ("message", Call::Message),
    ("fields", Call::Fields),
    ("client", Call::Client),
    ("replica", Call::Replica),
    ("clear", Call::Clear),
    ("folder", Call::Folder),
    ("file", Call::File),
    ("remove", Call::Remove),
    ("sealed", Call::Sealed),
    ("left", Call::Left),
];

/// Puts the answer of a call.
pub fn put_called(rt: &HostRuntime, call: &str, out: &mut String) {
    let alloc = rt.alloc();
    let path = word(call, 1);
    match named(CALLS, word(call, 0)) {
        Some(Call::Lines) => generated::put_script(alloc, call, true, out),
        Some(Call::Digest) => generated::put_script(alloc, call, false, out),
        Some(Call::Message) => spelled::put_message(alloc, call, out),
        Some(Call::Fields) => spelled::put_fields(alloc, call, out),
        Some(Call::Client) => spelled::put_client(alloc, call, out),
        Some(Call::Replica) => spelled::put_replica(alloc, call, out),
        Some(Call::Clear) => {
            let _ = fs::remove_dir_all(rt, path);
            put(out, "ok");
        }
        Some(Call::Folder) => put_reached(fs::create_dir_all(rt, path), out),
        Some(Call::File) => put_reached(fs::write(rt, path, b"a file".as_slice()), out),
        Some(Call::Remove) => put_reached(fs::remove_file(rt, path), out),
        Some(Call::Sealed) => files::put_sealed(rt, path, out),
        Some(Call::Left) => files::put_left(rt, call, out),
        None => put(out, "no call"),
    }
}
