// The forms of what a client does to the objects of a volume.
ghost use Rattle.coda_script.specs.Reading.{read};
ghost use Rattle.coda_script.specs.Table.{create_form, mkdir_form, symlink_form, store_form, setattr_form, remove_form, rmdir_form, rename_form, read_form};
ghost use Rattle.coda_script.specs.Outcome.{Gives};

use crate::options::{closes, mtime, owner, says};
use crate::slots::{number, path, sized_text, takes, text, wrong};
use crate::{Content, Line, LineFault, Task, options, slots};
use coda_fid::Attrs;
use coda_text::Cursor;
use std::alloc::Global;

#[tactic(auto, unfolding(crate::specs::Table::create_form))]
pub fn create(alloc: Global, cursor: &mut Cursor) -> Result<Line, LineFault>
    ensures { Gives (λ l. l) result (read create_form cursor.old) }
{
    let client = number(cursor, 1, 255)? as u8;
    let volume = number(cursor, 1, 4_294_967_295)? as u32;
    let path = path(alloc, cursor)?;
    let mode = options::mode(cursor)?;
    let owner = owner(cursor)?;
    let present = owner.is_some();
    let task = Task::Create {
        client,
        volume,
        path,
        mode,
        owner,
    };
    closes(cursor, present, Line::Task(task))
}

#[tactic(auto, unfolding(crate::specs::Table::mkdir_form))]
pub fn mkdir(alloc: Global, cursor: &mut Cursor) -> Result<Line, LineFault>
    ensures { Gives (λ l. l) result (read mkdir_form cursor.old) }
{
    let client = number(cursor, 1, 255)? as u8;
    let volume = number(cursor, 1, 4_294_967_295)? as u32;
    let path = path(alloc, cursor)?;
    let mode = options::mode(cursor)?;
    let owner = owner(cursor)?;
    let present = owner.is_some();
    let task = Task::Mkdir {
        client,
        volume,
        path,
        mode,
        owner,
    };
    closes(cursor, present, Line::Task(task))
}

#[tactic(auto, unfolding(crate::specs::Table::symlink_form))]
pub fn symlink(alloc: Global, cursor: &mut Cursor) -> Result<Line, LineFault>
    ensures { Gives (λ l. l) result (read symlink_form cursor.old) }
{
    let client = number(cursor, 1, 255)? as u8;
    let volume = number(cursor, 1, 4_294_967_295)? as u32;
    let path = path(alloc, cursor)?;
    let target = sized_text(alloc, cursor, 1, 1024)?;
    let task = Task::Symlink {
        client,
        volume,
        path,
        target,
    };
    says(cursor, Line::Task(task))
}

#[tactic(auto, unfolding(crate::specs::Table::store_form))]
pub fn store(alloc: Global, cursor: &mut Cursor) -> Result<Line, LineFault>
    ensures { Gives (λ l. l) result (read store_form cursor.old) }
{
    let client = number(cursor, 1, 255)? as u8;
    let volume = number(cursor, 1, 4_294_967_295)? as u32;
    let path = path(alloc, cursor)?;
    let content = if takes(cursor, b"text") {
        Content::Text(text(alloc, cursor)?)
    } else if takes(cursor, b"fill") {
        let length = number(cursor, 0, 2_000_000)? as u32;
        let byte = number(cursor, 0, 255)? as u8;
        Content::Fill { length, byte }
    } else {
        return wrong(cursor);
    };
    let task = Task::Store {
        client,
        volume,
        path,
        content,
    };
    says(cursor, Line::Task(task))
}

#[tactic(auto, unfolding(crate::specs::Table::setattr_form))]
pub fn setattr(alloc: Global, cursor: &mut Cursor) -> Result<Line, LineFault>
    ensures { Gives (λ l. l) result (read setattr_form cursor.old) }
{
    let client = number(cursor, 1, 255)? as u8;
    let volume = number(cursor, 1, 4_294_967_295)? as u32;
    let path = path(alloc, cursor)?;
    let attrs = if takes(cursor, b"mode") {
        let mode = Some(slots::mode(cursor)?);
        let owner = owner(cursor)?;
        let mtime = mtime(cursor)?;
        Attrs { mode, owner, mtime }
    } else if takes(cursor, b"owner") {
        let owner = Some(number(cursor, 0, 4_294_967_295)? as u32);
        let mtime = mtime(cursor)?;
        Attrs {
            mode: None,
            owner,
            mtime,
        }
    } else if takes(cursor, b"mtime") {
        let mtime = Some(number(cursor, 0, u64::MAX)?);
        Attrs {
            mode: None,
            owner: None,
            mtime,
        }
    } else {
        return wrong(cursor);
    };
    let task = Task::Setattr {
        client,
        volume,
        path,
        attrs,
    };
    closes(cursor, attrs.mtime.is_some(), Line::Task(task))
}

#[tactic(auto, unfolding(crate::specs::Table::remove_form))]
pub fn remove(alloc: Global, cursor: &mut Cursor) -> Result<Line, LineFault>
    ensures { Gives (λ l. l) result (read remove_form cursor.old) }
{
    let client = number(cursor, 1, 255)? as u8;
    let volume = number(cursor, 1, 4_294_967_295)? as u32;
    let path = path(alloc, cursor)?;
    let task = Task::Remove {
        client,
        volume,
        path,
    };
    says(cursor, Line::Task(task))
}

#[tactic(auto, unfolding(crate::specs::Table::rmdir_form))]
pub fn rmdir(alloc: Global, cursor: &mut Cursor) -> Result<Line, LineFault>
    ensures { Gives (λ l. l) result (read rmdir_form cursor.old) }
{
    let client = number(cursor, 1, 255)? as u8;
    let volume = number(cursor, 1, 4_294_967_295)? as u32;
    let path = path(alloc, cursor)?;
    let task = Task::Rmdir {
        client,
        volume,
        path,
    };
    says(cursor, Line::Task(task))
}

#[tactic(auto, unfolding(crate::specs::Table::rename_form))]
pub fn rename(alloc: Global, cursor: &mut Cursor) -> Result<Line, LineFault>
    ensures { Gives (λ l. l) result (read rename_form cursor.old) }
{
    let client = number(cursor, 1, 255)? as u8;
    let volume = number(cursor, 1, 4_294_967_295)? as u32;
    let from = path(alloc, cursor)?;
    let to = path(alloc, cursor)?;
    let task = Task::Rename {
        client,
        volume,
        from,
        to,
    };
    says(cursor, Line::Task(task))
}

#[tactic(auto, unfolding(crate::specs::Table::read_form))]
pub fn read(alloc: Global, cursor: &mut Cursor) -> Result<Line, LineFault>
    ensures { Gives (λ l. l) result (read read_form cursor.old) }
{
    let client = number(cursor, 1, 255)? as u8;
    let volume = number(cursor, 1, 4_294_967_295)? as u32;
    let path = path(alloc, cursor)?;
    let task = Task::Read {
        client,
        volume,
        path,
    };
    says(cursor, Line::Task(task))
}
