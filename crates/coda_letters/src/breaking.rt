// Breaks that are posted.
ghost use Rattle.std.specs.Prelude.{◌≡◌, ◌≤◌, ◌<◌, ◌^◌, ◌+◌, ◌⊎◌, true, false, IfOk, IfErr, OnOk, OnErr};
ghost use Rattle.coda_record.specs.Spelling.{HasSpelling};
ghost use Rattle.coda_wire.specs.declared.message.Message.TheVariants.{Break};
ghost use Rattle.coda_wire.specs.Table.{message as a_message};
ghost use Rattle.coda_net.specs.declared.fault.NetFault.TheVariants as net_faults;
ghost use Rattle.coda_net.specs.Pool.{is_down, link_of};
ghost use Rattle.coda_letters.specs.Sent.{Waiting, AreLetters, BreakSent};
ghost use Rattle.coda_letters.specs.Calls.{IsPosted, IsBreakPosted};

use coda_net::{Letter, Net, NetFault};
use coda_reslog::Fids;
use coda_wire::{Message, write};
use std::alloc::Global;

/// Posts a server's word to a client that objects changed of which it had promised to tell, and answers the number of
/// its letter. It counts for no limit: it waits until it is lost by its number, and puts no other letter out.
///
/// It asks that the word can be spelled, and that fewer than 2^63 letters were posted before.
///
/// # Errors
///
/// `LinkDown` only where the link of the two is down, over which nothing is posted, and else only `Memory`. Nothing
/// changes then.
pub fn post_break(
    alloc: Global,
    net: &mut Net,
    server: u8,
    client: u8,
    volume: u32,
    fids: Fids,
) -> Result<u64, NetFault>
    requires spelled { HasSpelling a_message (Break server client volume fids) }
    requires few { net.old.posted < 2 ^ 63 }
    ensures posted { IfOk result (λ letter. IsBreakPosted server client volume fids net.old letter net.new) }
    ensures said { (waiting : Waiting) → AreLetters waiting net.old → IfOk result (λ letter. IsPosted waiting (BreakSent server client volume fids) net.old letter net.new) }
    ensures later { net.new.posted ≤ net.old.posted + 1 }
    ensures links { net.new.links ≡ net.old.links }
    ensures up { OnOk result (is_down (link_of net.old client server) ≡ false) }
    ensures causes { IfErr result (λ why. (why ≡ net_faults.Memory) ⊎ ((why ≡ net_faults.LinkDown) × (is_down (link_of net.old client server) ≡ true))) }
    ensures err { OnErr result (net.new ≡ net.old) }
{
    let bytes = write(
        alloc,
        &Message::Break {
            server,
            client,
            volume,
            fids,
        },
    )?;
    net.post(Letter {
        client,
        server,
        to_server: false,
        lossy: false,
        bytes,
    })
}
