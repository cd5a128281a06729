ghost use Rattle.std.specs.Prelude.{◌≡◌, IfOk, Ok};
ghost use Rattle.coda_record.specs.Form.{four};
ghost use Rattle.coda_record.specs.Parts.{optional};
ghost use Rattle.coda_record.specs.Outcome.{Gives};
ghost use Rattle.coda_record.specs.Reading.{read as reading};
ghost use Rattle.coda_record.specs.Spelling.{Spells, alone, whole};
ghost use Rattle.coda_wire.specs.Outcome.{Reads};
ghost use Rattle.coda_wire.specs.Table.{message as a_message, versioned, chunk_form, verdict_form, fetch_form, found_object as a_found_object, found_form, break_form};

use crate::{Message, WireFault};
use coda_record::decisions::answer;
use coda_record::held::fids;
use coda_record::nodes::node;
use coda_record::parts::{u8_between, u32_between, u64_between};
use coda_record::reading::{GREATEST, fid, records};
use coda_record::updates::vector;
use coda_record::{Cursor, Fault};
use coda_tree::Node;
use coda_vv::Vv;
use std::alloc::Global;

/// The version of messages.
pub(crate) const VERSION: u8 = 1;

// A chunk, from its version on.
#[tactic(auto, unfolding(crate::specs::Table::chunk_form))]
fn chunk(alloc: Global, cursor: &mut Cursor) -> Result<Message, Fault>
    ensures { Gives (λ m. (m, cursor.new)) result (reading (versioned (chunk_form four)) cursor.old) }
{
    let version = cursor.tag()?;
    if version.byte != VERSION {
        return Err(version.unknown());
    }
    let client = u8_between(cursor, 1, 255)?;
    let server = u8_between(cursor, 1, 8)?;
    let volume = u32_between(cursor, 1, 4_294_967_295)?;
    let number = u64_between(cursor, 1, GREATEST)?;
    let recs = records(alloc, cursor)?;
    Ok(Message::Chunk {
        client,
        server,
        volume,
        number,
        recs,
    })
}

// A verdict, from its version on.
#[tactic(auto, unfolding(crate::specs::Table::verdict_form))]
fn verdict(cursor: &mut Cursor) -> Result<Message, Fault>
    ensures { Gives (λ m. (m, cursor.new)) result (reading (versioned verdict_form) cursor.old) }
{
    let version = cursor.tag()?;
    if version.byte != VERSION {
        return Err(version.unknown());
    }
    let server = u8_between(cursor, 1, 8)?;
    let client = u8_between(cursor, 1, 255)?;
    let volume = u32_between(cursor, 1, 4_294_967_295)?;
    let number = u64_between(cursor, 1, GREATEST)?;
    let answer = answer(cursor)?;
    Ok(Message::Verdict {
        server,
        client,
        volume,
        number,
        answer,
    })
}

// A fetch, from its version on.
#[tactic(auto, unfolding(crate::specs::Table::fetch_form))]
fn fetch(cursor: &mut Cursor) -> Result<Message, Fault>
    ensures { Gives (λ m. (m, cursor.new)) result (reading (versioned fetch_form) cursor.old) }
{
    let version = cursor.tag()?;
    if version.byte != VERSION {
        return Err(version.unknown());
    }
    let client = u8_between(cursor, 1, 255)?;
    let server = u8_between(cursor, 1, 8)?;
    let fid = fid(cursor)?;
    Ok(Message::Fetch {
        client,
        server,
        fid,
    })
}

// What a server found of an object.
#[tactic(auto, unfolding(crate::specs::Table::found_object))]
fn found_object(alloc: Global, cursor: &mut Cursor) -> Result<(Node, Vv), Fault>
    ensures { Gives (λ o. (o, cursor.new)) result (reading (a_found_object four).form cursor.old) }
{
    let node = node(alloc, cursor)?;
    let vector = vector(cursor)?;
    Ok((node, vector))
}

fn optional_found_object(alloc: Global, cursor: &mut Cursor) -> Result<Option<(Node, Vv)>, Fault>
    ensures { Gives (λ o. (o, cursor.new)) result (reading (optional (a_found_object four)).form cursor.old) }
{
    let tag = cursor.tag()?;
    match tag.byte {
        0 => Ok(None),
        1 => {
            let found = found_object(alloc, cursor)?;
            Ok(Some(found))
        }
        _ => Err(tag.unknown()),
    }
}

// A server's answer to a fetch, from its version on.
#[tactic(auto, unfolding(crate::specs::Table::found_form))]
fn found(alloc: Global, cursor: &mut Cursor) -> Result<Message, Fault>
    ensures { Gives (λ m. (m, cursor.new)) result (reading (versioned (found_form four)) cursor.old) }
{
    let version = cursor.tag()?;
    if version.byte != VERSION {
        return Err(version.unknown());
    }
    let server = u8_between(cursor, 1, 8)?;
    let client = u8_between(cursor, 1, 255)?;
    let fid = fid(cursor)?;
    let found = optional_found_object(alloc, cursor)?;
    Ok(Message::Node {
        server,
        client,
        fid,
        found,
    })
}

// A break, from its version on.
#[tactic(auto, unfolding(crate::specs::Table::break_form))]
fn broken(alloc: Global, cursor: &mut Cursor) -> Result<Message, Fault>
    ensures { Gives (λ m. (m, cursor.new)) result (reading (versioned break_form) cursor.old) }
{
    let version = cursor.tag()?;
    if version.byte != VERSION {
        return Err(version.unknown());
    }
    let server = u8_between(cursor, 1, 8)?;
    let client = u8_between(cursor, 1, 255)?;
    let volume = u32_between(cursor, 1, 4_294_967_295)?;
    let fids = fids(alloc, cursor)?;
    Ok(Message::Break {
        server,
        client,
        volume,
        fids,
    })
}

// A message, from the front of what is left.
#[tactic(auto, unfolding(crate::specs::Table::message))]
fn message(alloc: Global, cursor: &mut Cursor) -> Result<Message, Fault>
    ensures { Gives (λ m. (m, cursor.new)) result (reading a_message.form cursor.old) }
{
    let tag = cursor.tag()?;
    match tag.byte {
        1 => chunk(alloc, cursor),
        2 => verdict(cursor),
        3 => fetch(cursor),
        4 => found(alloc, cursor),
        5 => broken(alloc, cursor),
        _ => Err(tag.unknown()),
    }
}

// A message, with nothing behind it.
fn message_alone(alloc: Global, bytes: &[u8]) -> Result<Message, Fault>
    ensures { Gives (λ m. m) result (alone a_message bytes.now) }
{
    let mut cursor = Cursor::of(bytes);
    let message = message(alloc, &mut cursor)?;
    let left = cursor.left();
    if left != 0 {
        return Err(Fault::Broken { left });
    }
    Ok(message)
}

// What the bytes say.
#[tactic(auto, unfolding(coda_values::specs::Spelling::whole))]
fn said(alloc: Global, bytes: &[u8]) -> Result<Message, WireFault>
    ensures { Reads result (whole a_message bytes.now) }
{
    match message_alone(alloc, bytes) {
        Ok(message) => Ok(message),
        Err(Fault::Broken { left }) => Err(WireFault::BadMessage(bytes.len().saturating_sub(left))),
        Err(Fault::Memory) => Err(WireFault::Memory),
    }
}

/// The message that the bytes spell, all of them.
///
/// # Errors
///
/// `BadMessage` exactly where they spell none, with the offset of the first field or byte that breaks the format, or
/// their length where they are cut short. `Memory` may come for bytes that only begin as a message does.
pub fn read(alloc: Global, bytes: &[u8]) -> Result<Message, WireFault>
    // What is read is spelled so.
    ensures found { IfOk result (λ m. Spells a_message bytes.now m) }
    // What is spelled so is read, unless memory runs out.
    ensures only { (m : Message) → Spells a_message bytes.now m → Reads result (Ok m) }
    // Which fault it is.
    ensures exact { Reads result (whole a_message bytes.now) }
{
    said(alloc, bytes)
}
