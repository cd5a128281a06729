// The forms of messages cut short, hard links, access lists, backups and resolvers of files.
ghost use Rattle.coda_script.specs.Reading.{read};
ghost use Rattle.coda_script.specs.Table.{trim_form, hardlink_form, acl_form, clone_form, peek_form, unclone_form, asr_form, heal_form};
ghost use Rattle.coda_script.specs.Outcome.{Gives};

use crate::options::says;
use crate::slots::{name, number, path, rights, takes, wrong};
use crate::{Line, LineFault, Rule, Task};
use coda_text::Cursor;
use std::alloc::Global;

#[tactic(auto, unfolding(crate::specs::Table::trim_form))]
pub fn trim(cursor: &mut Cursor) -> Result<Line, LineFault>
    ensures { Gives (λ l. l) result (read trim_form cursor.old) }
{
    let message = number(cursor, 0, u64::MAX)?;
    let length = number(cursor, 0, u64::MAX)?;
    says(cursor, Line::Trim { message, length })
}

#[tactic(auto, unfolding(crate::specs::Table::hardlink_form))]
pub fn hardlink(alloc: Global, cursor: &mut Cursor) -> Result<Line, LineFault>
    ensures { Gives (λ l. l) result (read hardlink_form cursor.old) }
{
    let client = number(cursor, 1, 255)? as u8;
    let volume = number(cursor, 1, 4_294_967_295)? as u32;
    let from = path(alloc, cursor)?;
    let to = path(alloc, cursor)?;
    let task = Task::Hardlink {
        client,
        volume,
        from,
        to,
    };
    says(cursor, Line::Task(task))
}

#[tactic(auto, unfolding(crate::specs::Table::acl_form))]
pub fn acl(alloc: Global, cursor: &mut Cursor) -> Result<Line, LineFault>
    ensures { Gives (λ l. l) result (read acl_form cursor.old) }
{
    let server = number(cursor, 1, 8)? as u8;
    let volume = number(cursor, 1, 4_294_967_295)? as u32;
    let path = path(alloc, cursor)?;
    let who = number(cursor, 0, 255)? as u8;
    let plus = rights(cursor)?;
    let minus = rights(cursor)?;
    let line = Line::Acl {
        server,
        volume,
        path,
        who,
        plus,
        minus,
    };
    says(cursor, line)
}

#[tactic(auto, unfolding(crate::specs::Table::clone_form))]
pub fn clone(cursor: &mut Cursor) -> Result<Line, LineFault>
    ensures { Gives (λ l. l) result (read clone_form cursor.old) }
{
    let server = number(cursor, 1, 8)? as u8;
    let volume = number(cursor, 1, 4_294_967_295)? as u32;
    says(cursor, Line::Clone { server, volume })
}

#[tactic(auto, unfolding(crate::specs::Table::peek_form))]
pub fn peek(alloc: Global, cursor: &mut Cursor) -> Result<Line, LineFault>
    ensures { Gives (λ l. l) result (read peek_form cursor.old) }
{
    let server = number(cursor, 1, 8)? as u8;
    let volume = number(cursor, 1, 4_294_967_295)? as u32;
    let backup = number(cursor, 0, u64::MAX)?;
    let path = path(alloc, cursor)?;
    let line = Line::Peek {
        server,
        volume,
        number: backup,
        path,
    };
    says(cursor, line)
}

#[tactic(auto, unfolding(crate::specs::Table::unclone_form))]
pub fn unclone(cursor: &mut Cursor) -> Result<Line, LineFault>
    ensures { Gives (λ l. l) result (read unclone_form cursor.old) }
{
    let server = number(cursor, 1, 8)? as u8;
    let volume = number(cursor, 1, 4_294_967_295)? as u32;
    let backup = number(cursor, 0, u64::MAX)?;
    let line = Line::Unclone {
        server,
        volume,
        number: backup,
    };
    says(cursor, line)
}

#[tactic(auto, unfolding(crate::specs::Table::asr_form))]
pub fn asr(alloc: Global, cursor: &mut Cursor) -> Result<Line, LineFault>
    ensures { Gives (λ l. l) result (read asr_form cursor.old) }
{
    let volume = number(cursor, 1, 4_294_967_295)? as u32;
    let suffix = name(alloc, cursor)?;
    let rule = if takes(cursor, b"longer") {
        Rule::Longer
    } else if takes(cursor, b"union") {
        Rule::Union
    } else {
        return wrong(cursor);
    };
    let line = Line::Asr {
        volume,
        suffix,
        rule,
    };
    says(cursor, line)
}

#[tactic(auto, unfolding(crate::specs::Table::heal_form))]
pub fn heal(alloc: Global, cursor: &mut Cursor) -> Result<Line, LineFault>
    ensures { Gives (λ l. l) result (read heal_form cursor.old) }
{
    let volume = number(cursor, 1, 4_294_967_295)? as u32;
    let path = path(alloc, cursor)?;
    says(cursor, Line::Heal { volume, path })
}
