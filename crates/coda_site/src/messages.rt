// Letters between clients and replicas: a client sends a chunk, and what was sent is delivered or lost.
ghost use Rattle.std.specs.Prelude.{◌≡◌, ◌<◌, ◌≤◌, ◌+◌, ◌^◌, ◌≢◌, ◌∷◌, [], ◌++◌, List, not, nat_le, true, false, IfOk, IfErr, Some, None};
ghost use Rattle.coda_cancel.specs.Weights.{total_weight};
ghost use Rattle.coda_fid.specs.declared.op.Record.{Record as ARecord};
ghost use Rattle.coda_record.specs.Form.{four};
ghost use Rattle.coda_record.specs.Spelling.{HasSpelling};
ghost use Rattle.coda_record.specs.Table.{client as a_client, server as a_server, volume as a_volume};
ghost use Rattle.coda_wire.specs.Table.{message as a_message};
ghost use Rattle.coda_wire.specs.declared.message.Message.TheVariants.{Chunk, Verdict};
ghost use Rattle.coda_letters.specs.Sent.{ChunkSent, AnswerSent};
ghost use Rattle.coda_letters.specs.declared.fault.LetterFault.TheVariants as letter_faults;
ghost use Rattle.coda_plain.specs.Decisions.{sent_of};
ghost use Rattle.coda_script.specs.Ranges.{InRange};
ghost use Rattle.coda_script.specs.declared.line.Line.TheVariants as line;
ghost use Rattle.coda_actors.specs.Clients.{client_form};
ghost use Rattle.coda_actors.specs.Replicas.{replica_form};
ghost use Rattle.coda_actors.specs.Slots.{is_up};
ghost use Rattle.coda_crew.specs.Crews.{slot_at};
ghost use Rattle.coda_cell.specs.Cells.{linked_in};
ghost use Rattle.coda_cell.specs.Refusing.{letter_refused_as};
ghost use Rattle.coda_cell.specs.Refusing.{refusal};
ghost use Rattle.coda_cell.specs.Steps.{first_missing, on_holder};
ghost use Rattle.coda_shelves.specs.Cells.{Cell, state_of};
ghost use Rattle.coda_shelves.specs.Lines.{Happens, is_cut};
ghost use Rattle.coda_site.specs.Drains.{Acted, Came, CameTo, PostsChunk};
ghost use Rattle.coda_site.specs.Shelves.{Shows};
ghost use Rattle.coda_site.specs.Sites.{IsReady, place_in};
ghost use Rattle.coda_site.specs.Steps.{Becomes};
ghost use Rattle.coda_site.specs.Totals.{IsCounted, IsFault, totals};
ghost use Rattle.coda_site.specs.declared.site.Place.{Place as APlace};

use crate::chunks::{Until, chunk_at, freeze_at, rule_at, take_at};
use crate::draining::is_linked;
use crate::fault::CellFault;
use crate::links::cut_with;
use crate::replies::{
    no_such_actor, refuse, refuse_number, refused, reply_answer, reply_taken, unruled,
};
use crate::site::Site;
use coda_actors::Slot;
use coda_crew::is_up;
use coda_disk::{Bay, Disk};
use coda_fid::Record;
use coda_letters::{
    LetterFault, deliver as read_letter, lose as lose_letter, post_answer, send_chunk,
};
use coda_net::{Letter, Net};
use coda_record::Answer;
use coda_script::{Refusal, Reply};
use coda_sending::can_be_posted;
use coda_venus::Venus;
use coda_wire::Message;
use std::alloc::Global;
use std::collections::BTreeMap;

/// The greatest number of a chunk.
const GREATEST_CHUNK: u64 = 4_294_967_295;

/// What the records of a letter weigh at most: 16 MiB.
const HEAVIEST: u64 = 16_777_216;

// ---- a client sends

// Whether records weigh no more than those of a letter may.
fn are_light(recs: &[Record]) -> bool
    ensures { result ≡ nat_le (total_weight recs.now) 16777216 }
{
    let mut left = HEAVIEST;
    for rec in recs {
        match left.checked_sub(rec.weight()) {
            Some(rest) => left = rest,
            None => return false,
        }
    }
    true
}

// Posts the chunk of a client that is up, over a link that is up: the number of its letter. A log that a history left has a number that can be told
// for its chunk, and records that are light.
fn post_chunk<D: Disk>(
    alloc: Global,
    net: &mut Net,
    clients: &BTreeMap<u32, Slot<Venus<D>, D>>,
    client: u8,
    volume: u32,
    server: u8,
    chunk: u64,
) -> Result<u64, CellFault>
    requires up { is_up (client_form D.told) (slot_at clients.now client) ≡ true }
    requires client { HasSpelling a_client client }
    requires volume { HasSpelling a_volume volume }
    requires server { HasSpelling a_server server }
    requires few { net.old.posted < 2 ^ 63 }
    ensures posts { IfOk result (λ message. PostsChunk D.told client volume server chunk clients.now net.old net.new message) }
    ensures links { net.new.links ≡ net.old.links }
    ensures posted { net.new.posted ≤ net.old.posted + 1 }
    ensures memory { IfErr result (λ why. why ≡ CellFault.Memory) }
{
    let recs = chunk_at(clients, client, volume);
    if chunk == 0 || chunk > GREATEST_CHUNK || !are_light(recs) {
        return Err(CellFault::Memory);
    }
    match send_chunk(alloc, net, client, server, volume, chunk, recs) {
        Ok(message) => Ok(message),
        // The link is up.
        Err(_) => Err(CellFault::Memory),
    }
}

// Sends what a client that is up has of a volume, over a link that is up.
fn send_up<B: Bay>(
    _bay: &B,
    site: &mut Site<B::D>,
    client: u8,
    volume: u32,
    server: u8,
    window: u64,
) -> Result<Reply, CellFault>
    requires ready { IsReady B.D.told (B.out _bay.now) site.old }
    requires up { is_up (client_form B.D.told) (slot_at site.old.clients client) ≡ true }
    requires client { HasSpelling a_client client }
    requires volume { HasSpelling a_volume volume }
    requires server { HasSpelling a_server server }
    requires few { site.old.net.posted < 2 ^ 63 }
    ensures ready { IsReady B.D.told (B.out _bay.now) site.new }
    ensures does { (cell : Cell) (place : APlace) → Shows B.D.told (B.out _bay.now) (B.has _bay.now) cell site.old
        → place_in site.old volume ≡ Some place → place.server ≡ server → not (is_cut (linked_in site.old.net client server)) ≡ true
        → IfOk result (λ reply. Acted B.D.told (B.out _bay.now) (B.has _bay.now) cell (line.Send client volume server (Some window)) reply site.new) }
    ensures posted { site.new.net.posted ≤ site.old.net.posted + 1 }
    ensures memory { IfErr result (λ why. why ≡ CellFault.Memory) }
    ensures counts { IsCounted (IsFault result) false (totals B.D.told B.D.faults B.D.arms (B.disk_faults _bay.now) (B.disk_arms _bay.now) site.old) (totals B.D.told B.D.faults B.D.arms (B.disk_faults _bay.now) (B.disk_arms _bay.now) site.new) }
{
    let until = Until {
        now: site.clock,
        window,
    };
    match freeze_at(until, client, volume, server, &mut site.clients) {
        Ok(chunk) => {
            let message = post_chunk(
                site.alloc,
                &mut site.net,
                &site.clients,
                client,
                volume,
                server,
                chunk,
            )?;
            Ok(Reply::Sent { message, chunk })
        }
        Err(why) => refused(site.alloc, why),
    }
}

/// Sends what a client has of a volume to the server that holds it, unless one of the three isn't there, the client is down, or the link.
///
/// # Errors
///
/// `Memory` alone.
pub fn send<B: Bay>(
    _bay: &B,
    site: &mut Site<B::D>,
    client: u8,
    volume: u32,
    server: u8,
    window: u64,
) -> Result<Reply, CellFault>
    requires ready { IsReady B.D.told (B.out _bay.now) site.old }
    requires range { InRange (line.Send client volume server (Some window)) }
    requires few { site.old.net.posted < 2 ^ 63 }
    ensures ready { IsReady B.D.told (B.out _bay.now) site.new }
    ensures does { (cell : Cell) → Shows B.D.told (B.out _bay.now) (B.has _bay.now) cell site.old
        → IfOk result (λ reply. Becomes B.D.told (B.out _bay.now) (B.has _bay.now) (Happens cell (line.Send client volume server (Some window)))
        reply (B.answered _bay.now) (B.answered _bay.now) site.new) }
    ensures posted { site.new.net.posted ≤ site.old.net.posted + 1 }
    ensures memory { IfErr result (λ why. why ≡ CellFault.Memory) }
    ensures counts { IsCounted (IsFault result) false (totals B.D.told B.D.faults B.D.arms (B.disk_faults _bay.now) (B.disk_arms _bay.now) site.old) (totals B.D.told B.D.faults B.D.arms (B.disk_faults _bay.now) (B.disk_arms _bay.now) site.new) }
{
    if let Some(number) = site.missing_holder(client, volume, server) {
        return Ok(no_such_actor(site.alloc, number)?);
    }
    if !is_up(&site.clients, u32::from(client)) {
        return Ok(refuse(site.alloc, Refusal::Down));
    }
    if !is_linked(&site.net, client, server) {
        return Ok(refuse(site.alloc, Refusal::LinkDown));
    }
    send_up(_bay, site, client, volume, server, window)
}

// ---- a chunk is delivered

// A client's chunk comes to a replica that is up, whose answer goes out in a letter, over a link that is up.
fn rule_up<B: Bay>(
    _bay: &B,
    site: &mut Site<B::D>,
    client: u8,
    server: u8,
    volume: u32,
    disk: u32,
    number: u64,
    recs: &[Record],
) -> Result<Reply, CellFault>
    requires ready { IsReady B.D.told (B.out _bay.now) site.old }
    requires up { is_up (replica_form B.D.told) (slot_at site.old.replicas disk) ≡ true }
    requires spelled { HasSpelling a_message (Chunk client server volume number recs.now) }
    requires few { site.old.net.posted < 2 ^ 63 }
    ensures ready { IsReady B.D.told (B.out _bay.now) site.new }
    ensures does { (cell : Cell) (place : APlace) (span : List ARecord) → Shows B.D.told (B.out _bay.now) (B.has _bay.now) cell site.old
        → place_in site.old volume ≡ Some place → place.disk ≡ disk → place.server ≡ server → first_missing (on_holder (state_of cell) client volume server) ≡ None
        → recs.now ≡ sent_of span → IfOk result (λ reply. Came B.D.told (B.out _bay.now) (B.has _bay.now) cell (ChunkSent client server volume number span) reply site.new) }
    ensures posted { site.new.net.posted ≤ site.old.net.posted + 1 }
    ensures memory { IfErr result (λ why. why ≡ CellFault.Memory) }
    ensures counts { IsCounted (IsFault result) false (totals B.D.told B.D.faults B.D.arms (B.disk_faults _bay.now) (B.disk_arms _bay.now) site.old) (totals B.D.told B.D.faults B.D.arms (B.disk_faults _bay.now) (B.disk_arms _bay.now) site.new) }
{
    let answer = match rule_at(&mut site.replicas, disk, client, number, recs) {
        Ok(answer) => answer,
        Err(why) => return unruled(site.alloc, why),
    };
    // What a replica answers can be posted.
    if !can_be_posted(&answer) {
        return Err(CellFault::Memory);
    }
    match post_answer(
        site.alloc,
        &mut site.net,
        server,
        client,
        volume,
        number,
        answer,
    ) {
        Ok(message) => Ok(Reply::Delivered {
            chunk: number,
            answer: reply_answer(answer),
            message,
        }),
        // The link is up.
        Err(_) => Err(CellFault::Memory),
    }
}

// A client's chunk comes to the replica of its volume, whose answer goes out in a letter.
fn chunk_comes<B: Bay>(
    _bay: &B,
    site: &mut Site<B::D>,
    client: u8,
    server: u8,
    volume: u32,
    number: u64,
    recs: &[Record],
) -> Result<Reply, CellFault>
    requires ready { IsReady B.D.told (B.out _bay.now) site.old }
    requires spelled { HasSpelling a_message (Chunk client server volume number recs.now) }
    requires few { site.old.net.posted < 2 ^ 63 }
    ensures ready { IsReady B.D.told (B.out _bay.now) site.new }
    ensures does { (cell : Cell) (span : List ARecord) → Shows B.D.told (B.out _bay.now) (B.has _bay.now) cell site.old → recs.now ≡ sent_of span
        → IfOk result (λ reply. Becomes B.D.told (B.out _bay.now) (B.has _bay.now) (CameTo cell (ChunkSent client server volume number span))
        reply (B.answered _bay.now) (B.answered _bay.now) site.new) }
    ensures posted { site.new.net.posted ≤ site.old.net.posted + 1 }
    ensures memory { IfErr result (λ why. why ≡ CellFault.Memory) }
    ensures counts { IsCounted (IsFault result) false (totals B.D.told B.D.faults B.D.arms (B.disk_faults _bay.now) (B.disk_arms _bay.now) site.old) (totals B.D.told B.D.faults B.D.arms (B.disk_faults _bay.now) (B.disk_arms _bay.now) site.new) }
{
    if let Some(number) = site.missing_holder(client, volume, server) {
        return Ok(no_such_actor(site.alloc, number)?);
    }
    let Some(place) = site.place(volume) else {
        unreachable!()
    };
    if !is_up(&site.replicas, place.disk) {
        return Ok(refuse(site.alloc, Refusal::Down));
    }
    rule_up(_bay, site, client, server, volume, place.disk, number, recs)
}

// ---- an answer is delivered

// The answer to a chunk comes to its client, which is up.
fn take_up<B: Bay>(
    _bay: &B,
    site: &mut Site<B::D>,
    client: u8,
    server: u8,
    volume: u32,
    number: u64,
    answer: Answer,
) -> Result<Reply, CellFault>
    requires ready { IsReady B.D.told (B.out _bay.now) site.old }
    requires up { is_up (client_form B.D.told) (slot_at site.old.clients client) ≡ true }
    requires spelled { HasSpelling a_message (Verdict server client volume number answer) }
    ensures ready { IsReady B.D.told (B.out _bay.now) site.new }
    ensures does { (cell : Cell) → Shows B.D.told (B.out _bay.now) (B.has _bay.now) cell site.old
        → first_missing (on_holder (state_of cell) client volume server) ≡ None
        → IfOk result (λ reply. Came B.D.told (B.out _bay.now) (B.has _bay.now) cell (AnswerSent server client volume number answer) reply site.new) }
    ensures posted { site.new.net.posted ≤ site.old.net.posted + 1 }
    ensures memory { IfErr result (λ why. why ≡ CellFault.Memory) }
    ensures counts { IsCounted (IsFault result) false (totals B.D.told B.D.faults B.D.arms (B.disk_faults _bay.now) (B.disk_arms _bay.now) site.old) (totals B.D.told B.D.faults B.D.arms (B.disk_faults _bay.now) (B.disk_arms _bay.now) site.new) }
{
    if !can_be_posted(&answer) {
        return Err(CellFault::Memory);
    }
    match take_at(&mut site.clients, client, volume, number, &answer) {
        Ok(()) => Ok(reply_taken(number, answer)),
        Err(why) => refused(site.alloc, why),
    }
}

// The answer to a chunk comes to its client.
fn answer_comes<B: Bay>(
    _bay: &B,
    site: &mut Site<B::D>,
    client: u8,
    server: u8,
    volume: u32,
    number: u64,
    answer: Answer,
) -> Result<Reply, CellFault>
    requires ready { IsReady B.D.told (B.out _bay.now) site.old }
    requires spelled { HasSpelling a_message (Verdict server client volume number answer) }
    ensures ready { IsReady B.D.told (B.out _bay.now) site.new }
    ensures does { (cell : Cell) → Shows B.D.told (B.out _bay.now) (B.has _bay.now) cell site.old
        → IfOk result (λ reply. Becomes B.D.told (B.out _bay.now) (B.has _bay.now) (CameTo cell (AnswerSent server client volume number answer))
        reply (B.answered _bay.now) (B.answered _bay.now) site.new) }
    ensures posted { site.new.net.posted ≤ site.old.net.posted + 1 }
    ensures memory { IfErr result (λ why. why ≡ CellFault.Memory) }
    ensures counts { IsCounted (IsFault result) false (totals B.D.told B.D.faults B.D.arms (B.disk_faults _bay.now) (B.disk_arms _bay.now) site.old) (totals B.D.told B.D.faults B.D.arms (B.disk_faults _bay.now) (B.disk_arms _bay.now) site.new) }
{
    if let Some(number) = site.missing_holder(client, volume, server) {
        return Ok(no_such_actor(site.alloc, number)?);
    }
    if !is_up(&site.clients, u32::from(client)) {
        return Ok(refuse(site.alloc, Refusal::Down));
    }
    take_up(_bay, site, client, server, volume, number, answer)
}

// Why a letter isn't delivered or lost, as a reply.
fn undelivered(alloc: Global, why: LetterFault) -> Result<Reply, CellFault>
    ensures said { IfOk result (λ reply. (why ≢ letter_faults.Memory) × (reply ≡ refusal (letter_refused_as why))) }
    ensures memory { IfErr result (λ why. why ≡ CellFault.Memory) }
    ensures fine { ¬ IsFault result }
{
    match why {
        LetterFault::NoMessage(number) => Ok(refuse_number(alloc, Refusal::NoMessage, number)?),
        LetterFault::LinkDown => Ok(refuse(alloc, Refusal::LinkDown)),
        LetterFault::BadMessage(at) => Ok(refuse_number(alloc, Refusal::BadMessage, at as u64)?),
        LetterFault::Memory => Err(CellFault::Memory),
    }
}

/// What is answered where a letter is of no kind that is known.
const UNKNOWN: LetterFault = LetterFault::BadMessage(0);

/// Delivers a letter, which waits on and may be delivered again.
///
/// # Errors
///
/// `Memory` alone.
pub fn deliver<B: Bay>(bay: &B, site: &mut Site<B::D>, message: u64) -> Result<Reply, CellFault>
    requires ready { IsReady B.D.told (B.out bay.now) site.old }
    requires few { site.old.net.posted < 2 ^ 63 }
    ensures ready { IsReady B.D.told (B.out bay.now) site.new }
    ensures does { (cell : Cell) → Shows B.D.told (B.out bay.now) (B.has bay.now) cell site.old
        → IfOk result (λ reply. Becomes B.D.told (B.out bay.now) (B.has bay.now) (Happens cell (line.Deliver message))
        reply (B.answered bay.now) (B.answered bay.now) site.new) }
    ensures posted { site.new.net.posted ≤ site.old.net.posted + 1 }
    ensures memory { IfErr result (λ why. why ≡ CellFault.Memory) }
    ensures counts { IsCounted (IsFault result) false (totals B.D.told B.D.faults B.D.arms (B.disk_faults bay.now) (B.disk_arms bay.now) site.old) (totals B.D.told B.D.faults B.D.arms (B.disk_faults bay.now) (B.disk_arms bay.now) site.new) }
{
    match read_letter(site.alloc, &site.net, message) {
        Ok(
            Message::Chunk {
                client,
                server,
                volume,
                number,
                recs,
            },
        ) => chunk_comes(bay, site, client, server, volume, number, recs.records()),
        Ok(
            Message::Verdict {
                server,
                client,
                volume,
                number,
                answer,
            },
        ) => answer_comes(bay, site, client, server, volume, number, answer),
        // Nothing sends these yet, so they are as unknown as any other kind.
        Ok(Message::Fetch { .. }) => undelivered(site.alloc, UNKNOWN),
        Ok(Message::Node { .. }) => undelivered(site.alloc, UNKNOWN),
        Ok(Message::Break { .. }) => undelivered(site.alloc, UNKNOWN),
        Err(why) => undelivered(site.alloc, why),
    }
}

// What is answered where a letter was lost.
fn reply_lost(_letter: Letter, message: u64) -> Reply
    ensures { result ≡ Reply.Lost message }
{
    Reply::Lost { message }
}

/// Loses a letter. With one that may not be lost for the limits the link between its ends goes down.
///
/// # Errors
///
/// `Memory` alone.
pub fn lose<B: Bay>(_bay: &B, site: &mut Site<B::D>, message: u64) -> Result<Reply, CellFault>
    requires ready { IsReady B.D.told (B.out _bay.now) site.old }
    ensures ready { IsReady B.D.told (B.out _bay.now) site.new }
    ensures does { (cell : Cell) → Shows B.D.told (B.out _bay.now) (B.has _bay.now) cell site.old
        → IfOk result (λ reply. Becomes B.D.told (B.out _bay.now) (B.has _bay.now) (Happens cell (line.Lose message))
        reply (B.answered _bay.now) (B.answered _bay.now) site.new) }
    ensures posted { site.new.net.posted ≡ site.old.net.posted }
    ensures memory { IfErr result (λ why. why ≡ CellFault.Memory) }
    ensures counts { IsCounted (IsFault result) false (totals B.D.told B.D.faults B.D.arms (B.disk_faults _bay.now) (B.disk_arms _bay.now) site.old) (totals B.D.told B.D.faults B.D.arms (B.disk_faults _bay.now) (B.disk_arms _bay.now) site.new) }
{
    match lose_letter(&mut site.net, message) {
        Ok(letter) => match cut_with(&mut site.net, &letter) {
            Ok(()) => Ok(reply_lost(letter, message)),
            Err(_) => Err(CellFault::Memory),
        },
        Err(why) => undelivered(site.alloc, why),
    }
}
