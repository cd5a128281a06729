// Scripts that are generated.
use crate::texts::{number, put};
use coda_gen::{GenFault, script};
use std::alloc::Global;

// The 64 bits of Fowler, Noll and Vo's hash 1a.
fn digest(bytes: &[u8]) -> u64 {
    let mut value = 0xcbf2_9ce4_8422_2325_u64;
    for byte in bytes {
        value = (value ^ u64::from(*byte)).wrapping_mul(0x0100_0000_01b3);
    }
    value
}

// Puts the lines of a script, a bar in the place of each newline.
fn put_lines(script: &[u8], out: &mut String) {
    for line in std::str::from_utf8(script).unwrap_or("no text").split('\n') {
        if !out.is_empty() {
            put(out, "|");
        }
        put(out, line);
    }
}

/// `lines START COUNT`, or `digest START COUNT`.
pub fn put_script(alloc: Global, call: &str, is_whole: bool, out: &mut String) {
    match script(alloc, number(call, 1), number(call, 2)) {
        Ok(text) if is_whole => put_lines(text.bytes(), out),
        Ok(text) => {
            let value = digest(text.bytes());
            let _ = write!(out, "{value}");
        }
        Err(GenFault::TooMany) => put(out, "too many"),
        Err(GenFault::Memory) => put(out, "no memory"),
    }
}
