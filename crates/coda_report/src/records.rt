// The texts of a log's records.
ghost use Rattle.std.specs.Prelude.{◌≡◌, ◌++◌, ◌∷◌, [], take, drop, OnOk, string_bytes, codes};
ghost use Rattle.std.specs.List.{flat_map};
ghost use Rattle.coda_report.specs.Records.{place_text, version_text, made_text, gone_text, move_text, set_mode_text, set_owner_text, set_mtime_text, attrs_text, over_text, op_text, record_line};

use crate::printing::{put_content, put_mode};
use coda_cancel::LentRecords;
use coda_fid::{Attrs, Bytes, Fid, Name, Op, Over, Record, Sid};
use coda_text::{put_byte, put_printed};
use std::alloc::AllocError;
use std::fmt::Write;

// Puts a directory and a name in it.
fn put_place(out: &mut String, dir: Fid, name: &Name) -> Result<(), AllocError>
    ensures { OnOk result (string_bytes out.new ≡ string_bytes out.old ++ place_text dir name.now) }
{
    write!(out, "{dir} ")?;
    put_printed(out, name.bytes())
}

// Puts an object with the version of it that the client had.
fn put_version(out: &mut String, fid: Fid, pre: Sid) -> Result<(), AllocError>
    ensures { OnOk result (string_bytes out.new ≡ string_bytes out.old ++ version_text fid pre) }
{
    write!(out, "{fid} pre {pre}")
}

// Puts where a new object is bound, its fid, mode and owner.
fn put_made(
    out: &mut String,
    dir: Fid,
    name: &Name,
    fid: Fid,
    mode: u16,
    owner: u32,
) -> Result<(), AllocError>
    ensures { OnOk result (string_bytes out.new ≡ string_bytes out.old ++ made_text dir name.now fid mode owner) }
{
    put_place(out, dir, name)?;
    write!(out, " {fid} ")?;
    put_mode(out, mode)?;
    write!(out, " {owner}")
}

// Puts where an object that goes is bound, and its version.
fn put_gone(out: &mut String, dir: Fid, name: &Name, fid: Fid, pre: Sid) -> Result<(), AllocError>
    ensures { OnOk result (string_bytes out.new ≡ string_bytes out.old ++ gone_text dir name.now fid pre) }
{
    put_place(out, dir, name)?;
    put_byte(out, b' ')?;
    put_version(out, fid, pre)
}

fn put_set_mode(out: &mut String, mode: Option<u16>) -> Result<(), AllocError>
    ensures { OnOk result (string_bytes out.new ≡ string_bytes out.old ++ set_mode_text mode) }
{
    match mode {
        Some(mode) => {
            out.push_str(" mode ")?;
            put_mode(out, mode)
        }
        None => Ok(()),
    }
}

fn put_set_owner(out: &mut String, owner: Option<u32>) -> Result<(), AllocError>
    ensures { OnOk result (string_bytes out.new ≡ string_bytes out.old ++ set_owner_text owner) }
{
    match owner {
        Some(owner) => write!(out, " owner {owner}"),
        None => Ok(()),
    }
}

fn put_set_mtime(out: &mut String, mtime: Option<u64>) -> Result<(), AllocError>
    ensures { OnOk result (string_bytes out.new ≡ string_bytes out.old ++ set_mtime_text mtime) }
{
    match mtime {
        Some(mtime) => write!(out, " mtime {mtime}"),
        None => Ok(()),
    }
}

// Puts the attributes that are set.
fn put_attrs(out: &mut String, attrs: Attrs) -> Result<(), AllocError>
    ensures { OnOk result (string_bytes out.new ≡ string_bytes out.old ++ attrs_text attrs) }
{
    put_set_mode(out, attrs.mode)?;
    put_set_owner(out, attrs.owner)?;
    put_set_mtime(out, attrs.mtime)
}

// Puts the object that a rename replaces, where there is one.
fn put_over(out: &mut String, over: Option<Over>) -> Result<(), AllocError>
    ensures { OnOk result (string_bytes out.new ≡ string_bytes out.old ++ over_text over) }
{
    match over {
        Some(over) => {
            out.push_str(" over ")?;
            put_version(out, over.fid, over.pre)
        }
        None => Ok(()),
    }
}

// Puts a symbolic link's target behind where it is made.
fn put_symlink(
    out: &mut String,
    dir: Fid,
    name: &Name,
    fid: Fid,
    target: &Bytes,
    mode: u16,
    owner: u32,
) -> Result<(), AllocError>
    ensures { OnOk result (string_bytes out.new ≡ string_bytes out.old ++ op_text (Op.Symlink dir name.now fid target.now mode owner)) }
{
    put_creation(out, "symlink ", dir, name, fid, mode, owner)?;
    put_byte(out, b' ')?;
    put_content(out, target.bytes())
}

fn put_store(out: &mut String, fid: Fid, pre: Sid, content: &Bytes) -> Result<(), AllocError>
    ensures { OnOk result (string_bytes out.new ≡ string_bytes out.old ++ op_text (Op.Store fid pre content.now)) }
{
    let length = content.len();
    write!(out, "store {fid} pre {pre} {length} ")?;
    put_content(out, content.bytes())
}

fn put_setattr(out: &mut String, fid: Fid, pre: Sid, attrs: Attrs) -> Result<(), AllocError>
    ensures { OnOk result (string_bytes out.new ≡ string_bytes out.old ++ op_text (Op.Setattr fid pre attrs)) }
{
    out.push_str("setattr ")?;
    put_version(out, fid, pre)?;
    put_attrs(out, attrs)
}

// Puts where an object was bound, and where it is to be.
fn put_move(out: &mut String, from: (Fid, &Name), to: (Fid, &Name)) -> Result<(), AllocError>
    ensures { OnOk result (string_bytes out.new ≡ string_bytes out.old ++ move_text from.entry.0 from.entry.1.now to.entry.0 to.entry.1.now) }
{
    put_place(out, from.0, from.1)?;
    put_byte(out, b' ')?;
    put_place(out, to.0, to.1)
}

// Puts both places of a rename, its object, and what it replaces.
fn put_rename(
    out: &mut String,
    from: (Fid, &Name),
    to: (Fid, &Name),
    fid: Fid,
    over: Option<Over>,
) -> Result<(), AllocError>
    ensures { OnOk result (string_bytes out.new ≡ string_bytes out.old ++ op_text (Op.Rename from.entry.0 from.entry.1.now to.entry.0 to.entry.1.now fid over)) }
{
    out.push_str("rename ")?;
    put_move(out, from, to)?;
    write!(out, " {fid}")?;
    put_over(out, over)
}

// Puts a word and where a new object is made.
fn put_creation(
    out: &mut String,
    word: &str,
    dir: Fid,
    name: &Name,
    fid: Fid,
    mode: u16,
    owner: u32,
) -> Result<(), AllocError>
    ensures { OnOk result (string_bytes out.new ≡ string_bytes out.old ++ word.now ++ made_text dir name.now fid mode owner) }
{
    out.push_str(word)?;
    put_made(out, dir, name, fid, mode, owner)
}

// Puts a word and where an object goes.
fn put_removal(
    out: &mut String,
    word: &str,
    dir: Fid,
    name: &Name,
    fid: Fid,
    pre: Sid,
) -> Result<(), AllocError>
    ensures { OnOk result (string_bytes out.new ≡ string_bytes out.old ++ word.now ++ gone_text dir name.now fid pre) }
{
    out.push_str(word)?;
    put_gone(out, dir, name, fid, pre)
}

// Puts an operation: its word, and what it carries.
fn put_op(out: &mut String, op: &Op) -> Result<(), AllocError>
    ensures { OnOk result (string_bytes out.new ≡ string_bytes out.old ++ op_text op.now) }
{
    match op {
        Op::Create {
            dir,
            name,
            fid,
            mode,
            owner,
        } => put_creation(out, "create ", *dir, name, *fid, *mode, *owner),
        Op::Mkdir {
            dir,
            name,
            fid,
            mode,
            owner,
        } => put_creation(out, "mkdir ", *dir, name, *fid, *mode, *owner),
        Op::Symlink {
            dir,
            name,
            fid,
            target,
            mode,
            owner,
        } => put_symlink(out, *dir, name, *fid, target, *mode, *owner),
        Op::Store { fid, pre, content } => put_store(out, *fid, *pre, content),
        Op::Setattr { fid, pre, attrs } => put_setattr(out, *fid, *pre, *attrs),
        Op::Remove {
            dir,
            name,
            fid,
            pre,
        } => put_removal(out, "remove ", *dir, name, *fid, *pre),
        Op::Rmdir {
            dir,
            name,
            fid,
            pre,
        } => put_removal(out, "rmdir ", *dir, name, *fid, *pre),
        Op::Rename {
            from_dir,
            from,
            to_dir,
            to,
            fid,
            over,
        } => put_rename(out, (*from_dir, from), (*to_dir, to), *fid, *over),
    }
}

// Puts the line of a record: its number and its operation.
fn put_record(out: &mut String, entry: &Record) -> Result<(), AllocError>
    ensures { OnOk result (string_bytes out.new ≡ string_bytes out.old ++ record_line entry.now) }
{
    let number = entry.number;
    write!(out, "{number} ")?;
    put_op(out, &entry.op)?;
    put_byte(out, b'\n')
}

/// Puts records, each on a line.
pub fn put_records(out: &mut String, records: &[Record]) -> Result<(), AllocError>
    ensures { OnOk result (string_bytes out.new ≡ string_bytes out.old ++ flat_map record_line records.now) }
{
    for entry in records {
        put_record(out, entry)?;
    }
    Ok(())
}

/// Puts the next records, so many, each on a line, and leaves them out.
pub fn put_next_records(
    out: &mut String,
    records: &mut LentRecords<'_>,
    count: usize,
) -> Result<(), AllocError>
    ensures text { OnOk result (string_bytes out.new ≡ string_bytes out.old ++ flat_map record_line (take count records.old)) }
    ensures rest { OnOk result (records.new ≡ drop count records.old) }
{
    let mut left = count;
    while left > 0 {
        if let Some(entry) = records.take_first() {
            put_record(out, entry)?;
        }
        left -= 1;
    }
    Ok(())
}
