// Letters that are sent.
ghost use Rattle.std.specs.Prelude.{◌≡◌, ◌≤◌, ◌<◌, ◌^◌, ◌+◌, ◌⊎◌, List, true, IfOk, IfErr, OnErr};
ghost use Rattle.coda_fid.specs.declared.op.Record.{Record};
ghost use Rattle.coda_cancel.specs.Cancel.{fold};
ghost use Rattle.coda_cancel.specs.Weights.{total_weight};
ghost use Rattle.coda_record.specs.Spelling.{HasSpelling};
ghost use Rattle.coda_wire.specs.declared.message.Message.TheVariants.{Chunk, Verdict};
ghost use Rattle.coda_wire.specs.Table.{message as a_message};
ghost use Rattle.coda_net.specs.declared.fault.NetFault.TheVariants as net_faults;
ghost use Rattle.coda_net.specs.Pool.{is_down, link_of};
ghost use Rattle.coda_letters.specs.Sent.{Waiting, AreLetters, ChunkSent, AnswerSent};
ghost use Rattle.coda_letters.specs.Calls.{IsPosted, IsSent};

use coda_fid::Record;
use coda_net::{Letter, Net, NetFault};
use coda_record::Answer;
use coda_wire::{Message, write, write_chunk};
use std::alloc::Global;

/// Sends a client's chunk to a server by the records that are left of it, and answers the number of its letter: the least of one that
/// says the same and waits, and else that of a new one.
///
/// It asks that the records can be spelled and weigh at most 16 MiB, as those of a log do, and that fewer than 2^63 letters were posted
/// before. Looking for the letter costs a comparison of ends and length with each that waits, which are at most 1,024.
///
/// # Errors
///
/// `LinkDown` only where the link of the two is down and no such letter waits, and else only `Memory`. Nothing changes then.
pub fn send_chunk(
    alloc: Global,
    net: &mut Net,
    client: u8,
    server: u8,
    volume: u32,
    number: u64,
    recs: &[Record],
) -> Result<u64, NetFault>
    requires spelled { HasSpelling a_message (Chunk client server volume number recs.now) }
    requires light { total_weight recs.now ≤ 16777216 }
    requires few { net.old.posted < 2 ^ 63 }
    ensures sent { (waiting : Waiting) (span : List Record) → AreLetters waiting net.old → recs.now ≡ fold span → IfOk result (λ letter. IsSent waiting (ChunkSent client server volume number span) net.old letter net.new) }
    ensures later { net.new.posted ≤ net.old.posted + 1 }
    ensures links { net.new.links ≡ net.old.links }
    ensures causes { IfErr result (λ why. (why ≡ net_faults.Memory) ⊎ ((why ≡ net_faults.LinkDown) × (is_down (link_of net.old client server) ≡ true))) }
    ensures err { OnErr result (net.new ≡ net.old) }
{
    let bytes = write_chunk(alloc, client, server, volume, number, recs)?;
    match net.find(client, server, bytes.bytes()) {
        Some(letter) => Ok(letter),
        None => net.post(Letter {
            client,
            server,
            to_server: true,
            lossy: true,
            bytes,
        }),
    }
}

/// Posts a server's answer to a client's chunk, and answers the number of its letter.
///
/// It asks that the answer can be spelled, and that fewer than 2^63 letters were posted before.
///
/// # Errors
///
/// `LinkDown` only where the link of the two is down, and else only `Memory`. Nothing changes then.
pub fn post_answer(
    alloc: Global,
    net: &mut Net,
    server: u8,
    client: u8,
    volume: u32,
    number: u64,
    answer: Answer,
) -> Result<u64, NetFault>
    requires spelled { HasSpelling a_message (Verdict server client volume number answer) }
    requires few { net.old.posted < 2 ^ 63 }
    ensures posted { (waiting : Waiting) → AreLetters waiting net.old → IfOk result (λ letter. IsPosted waiting (AnswerSent server client volume number answer) net.old letter net.new) }
    ensures later { net.new.posted ≤ net.old.posted + 1 }
    ensures links { net.new.links ≡ net.old.links }
    ensures causes { IfErr result (λ why. (why ≡ net_faults.Memory) ⊎ ((why ≡ net_faults.LinkDown) × (is_down (link_of net.old client server) ≡ true))) }
    ensures err { OnErr result (net.new ≡ net.old) }
{
    let bytes = write(
        alloc,
        &Message::Verdict {
            server,
            client,
            volume,
            number,
            answer,
        },
    )?;
    net.post(Letter {
        client,
        server,
        to_server: false,
        lossy: true,
        bytes,
    })
}
