// What a resolution makes of replicas, as a line. Where there is no memory for it, it lacks.
use coda_resolve::{Mark, Outcome, Why};

// Puts why an object is marked.
fn put_why(why: &Why, out: &mut String) {
    let _ = match why {
        Why::Kept => out.push_str("kept"),
        Why::Wrapped(origin, seq) => write!(out, "wrapped {origin} {seq}"),
        Why::CrossRename => out.push_str("cross-rename"),
        Why::NameName(name) => {
            let name = std::str::from_utf8(name.bytes()).unwrap_or("no text");
            write!(out, "name-name {name}")
        }
        Why::DoubleName(fid) => write!(out, "double-name {}", fid.vnode),
        Why::RemoveUpdate(fid) => write!(out, "remove-update {}", fid.vnode),
        Why::AttrAttr => out.push_str("attr-attr"),
        Why::FileFile => out.push_str("file-file"),
    };
}

// Puts an object that is marked, and why.
fn put_mark(mark: &Mark, out: &mut String) {
    let _ = write!(out, "; {} ", mark.fid.vnode);
    put_why(&mark.why, out);
}

/// Puts how many objects are touched, and which are marked why.
pub fn put_outcome(outcome: &Outcome, out: &mut String) {
    let _ = write!(out, "{} touched", outcome.touched);
    for mark in outcome.marks.marks() {
        put_mark(mark, out);
    }
    let _ = out.push_str("\n");
}
