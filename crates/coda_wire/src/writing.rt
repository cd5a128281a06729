ghost use Rattle.std.specs.Prelude.{◌≡◌, ℕ, ◌++◌, ◌∷◌, [], IfOk, OnOk, length};
ghost use Rattle.coda_record.specs.Form.{four, together};
ghost use Rattle.coda_record.specs.Held.{fids as some_fids};
ghost use Rattle.coda_record.specs.Parts.{u8 as a_u8, u32 as a_u32, u64 as a_u64, optional};
ghost use Rattle.coda_record.specs.Spelling.{HasSpelling, Spells};
ghost use Rattle.coda_record.specs.Table.{records as some_records};
ghost use Rattle.coda_wire.specs.declared.message.Message.TheVariants.{Chunk, Verdict, Fetch, Break};
ghost use Rattle.coda_wire.specs.declared.message.Message.TheVariants as messages;
ghost use Rattle.coda_wire.specs.Table.{message as a_message, found_object as a_found_object};

use crate::reading::VERSION;
use crate::{Answer, Message};
use coda_fid::{Bytes, Fid, Record};
use coda_record::decisions::{length_of_answer, put_answer};
use coda_record::held::put_fids;
use coda_record::lengths::length_of_records;
use coda_record::nodes::put_node;
use coda_record::updates::put_vector;
use coda_record::writing::{put_fid, put_records, put_u8, put_u32, put_u64};
use coda_tree::Node;
use coda_vv::Vv;
use std::alloc::{AllocError, Global};

/// How many bytes a fetch has.
const LENGTH_OF_FETCH: usize = 16;

// A tag and the version, from whom and to whom.
fn put_ends(out: &mut Vec<u8>, tag: u8, from: u8, to: u8) -> Result<(), AllocError>
    ensures { OnOk result (out.new.items ≡ out.old.items ++ (together (a_u8.piece tag ∷ a_u8.piece 1 ∷ a_u8.piece from ∷ a_u8.piece to ∷ [])).bytes) }
{
    put_u8(out, tag)?;
    put_u8(out, VERSION)?;
    put_u8(out, from)?;
    put_u8(out, to)
}

// A tag and the version, from whom and to whom, a volume and a chunk's number.
fn put_head(
    out: &mut Vec<u8>,
    tag: u8,
    from: u8,
    to: u8,
    volume: u32,
    number: u64,
) -> Result<(), AllocError>
    ensures { OnOk result (out.new.items ≡ out.old.items ++ (together (a_u8.piece tag ∷ a_u8.piece 1 ∷ a_u8.piece from ∷ a_u8.piece to ∷ a_u32.piece volume ∷ a_u64.piece number ∷ [])).bytes) }
{
    put_u8(out, tag)?;
    put_u8(out, VERSION)?;
    put_u8(out, from)?;
    put_u8(out, to)?;
    put_u32(out, volume)?;
    put_u64(out, number)
}

// How many bytes a chunk of these records has.
#[tactic(auto, using(crate::proofs::Spans::chunk_span))]
fn length_of_chunk(recs: &[Record]) -> usize
    requires { HasSpelling (some_records four) recs.now }
    ensures { (client server volume number : ℕ) → result ≡ length (a_message.piece (Chunk client server volume number recs.now)).bytes }
{
    16 + length_of_records(recs)
}

// How many bytes a verdict has.
#[tactic(auto, using(crate::proofs::Spans::verdict_span))]
fn length_of_verdict(answer: &Answer) -> usize
    ensures { (server client volume number : ℕ) → result ≡ length (a_message.piece (Verdict server client volume number answer.now)).bytes }
{
    16 + length_of_answer(answer)
}

// How many bytes a break of these objects has.
#[tactic(auto, using(crate::proofs::Spans::break_span))]
fn length_of_break(fids: &[Fid]) -> usize
    requires { HasSpelling some_fids fids.now }
    ensures { (server client volume : ℕ) → result ≡ length (a_message.piece (Break server client volume fids.now)).bytes }
{
    12 + 12 * fids.len()
}

/// The spelling of a chunk whose records stand elsewhere, so that they need not be copied; as [`write`] gives it.
#[tactic(auto, unfolding(crate::specs::Table::message))]
pub fn write_chunk(
    alloc: Global,
    client: u8,
    server: u8,
    volume: u32,
    number: u64,
    recs: &[Record],
) -> Result<Bytes, AllocError>
    requires { HasSpelling a_message (Chunk client server volume number recs.now) }
    ensures { IfOk result (λ b. Spells a_message b (Chunk client server volume number recs.now)) }
{
    let mut out = Vec::with_capacity(alloc, length_of_chunk(recs))?;
    put_head(&mut out, 1, client, server, volume, number)?;
    put_records(&mut out, recs)?;
    Ok(Bytes::from_vec(out))
}

// The spelling of a verdict.
#[tactic(auto, unfolding(crate::specs::Table::message))]
fn write_verdict(
    alloc: Global,
    server: u8,
    client: u8,
    volume: u32,
    number: u64,
    answer: &Answer,
) -> Result<Bytes, AllocError>
    requires { HasSpelling a_message (Verdict server client volume number answer.now) }
    ensures { IfOk result (λ b. Spells a_message b (Verdict server client volume number answer.now)) }
{
    let mut out = Vec::with_capacity(alloc, length_of_verdict(answer))?;
    put_head(&mut out, 2, server, client, volume, number)?;
    put_answer(&mut out, answer)?;
    Ok(Bytes::from_vec(out))
}

// The spelling of a fetch.
#[tactic(auto, unfolding(crate::specs::Table::message))]
fn write_fetch(alloc: Global, client: u8, server: u8, fid: Fid) -> Result<Bytes, AllocError>
    requires { HasSpelling a_message (Fetch client server fid) }
    ensures { IfOk result (λ b. Spells a_message b (Fetch client server fid)) }
{
    let mut out = Vec::with_capacity(alloc, LENGTH_OF_FETCH)?;
    put_ends(&mut out, 3, client, server)?;
    put_fid(&mut out, fid)?;
    Ok(Bytes::from_vec(out))
}

// What a server found of an object.
#[tactic(auto, unfolding(crate::specs::Table::found_object))]
fn put_found_object(out: &mut Vec<u8>, object: &(Node, Vv)) -> Result<(), AllocError>
    requires { HasSpelling (a_found_object four) object.now }
    ensures { OnOk result (out.new.items ≡ out.old.items ++ ((a_found_object four).piece object.now).bytes) }
{
    put_node(out, &object.0)?;
    put_vector(out, &object.1)
}

fn put_optional_found_object(
    out: &mut Vec<u8>,
    found: &Option<(Node, Vv)>,
) -> Result<(), AllocError>
    requires { HasSpelling (optional (a_found_object four)) found.now }
    ensures { OnOk result (out.new.items ≡ out.old.items ++ ((optional (a_found_object four)).piece found.now).bytes) }
{
    match found {
        None => put_u8(out, 0),
        Some(object) => {
            put_u8(out, 1)?;
            put_found_object(out, object)
        }
    }
}

// The spelling of a server's answer to a fetch.
#[tactic(auto, unfolding(crate::specs::Table::message))]
fn write_found(
    alloc: Global,
    server: u8,
    client: u8,
    fid: Fid,
    found: &Option<(Node, Vv)>,
) -> Result<Bytes, AllocError>
    requires { HasSpelling a_message (messages.Node server client fid found.now) }
    ensures { IfOk result (λ b. Spells a_message b (messages.Node server client fid found.now)) }
{
    let mut out = Vec::new(alloc);
    put_ends(&mut out, 4, server, client)?;
    put_fid(&mut out, fid)?;
    put_optional_found_object(&mut out, found)?;
    Ok(Bytes::from_vec(out))
}

// The spelling of a break.
#[tactic(auto, unfolding(crate::specs::Table::message))]
fn write_break(
    alloc: Global,
    server: u8,
    client: u8,
    volume: u32,
    fids: &[Fid],
) -> Result<Bytes, AllocError>
    requires { HasSpelling a_message (Break server client volume fids.now) }
    ensures { IfOk result (λ b. Spells a_message b (Break server client volume fids.now)) }
{
    let mut out = Vec::with_capacity(alloc, length_of_break(fids))?;
    put_ends(&mut out, 5, server, client)?;
    put_u32(&mut out, volume)?;
    put_fids(&mut out, fids)?;
    Ok(Bytes::from_vec(out))
}

/// The spelling of a message. Its memory is taken at once, but for a node, whose grows as it is written. Fails for want
/// of memory alone.
///
/// It asks that the message has a spelling: its numbers are in their ranges (client 1 to 255, server 1 to 8, volume
/// and chunk 1 to 2^32 - 1), targets and contents within their lengths, the numbers of its records rise, and so do
/// the fids of a break.
pub fn write(alloc: Global, message: &Message) -> Result<Bytes, AllocError>
    requires { HasSpelling a_message message.now }
    ensures { IfOk result (λ b. Spells a_message b message.now) }
{
    match message {
        Message::Chunk {
            client,
            server,
            volume,
            number,
            recs,
        } => write_chunk(alloc, *client, *server, *volume, *number, recs.records()),
        Message::Verdict {
            server,
            client,
            volume,
            number,
            answer,
        } => write_verdict(alloc, *server, *client, *volume, *number, answer),
        Message::Fetch {
            client,
            server,
            fid,
        } => write_fetch(alloc, *client, *server, *fid),
        Message::Node {
            server,
            client,
            fid,
            found,
        } => write_found(alloc, *server, *client, *fid, found),
        Message::Break {
            server,
            client,
            volume,
            fids,
        } => write_break(alloc, *server, *client, *volume, fids.fids()),
    }
}
