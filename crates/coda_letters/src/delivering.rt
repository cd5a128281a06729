// Letters that are delivered.
ghost use Rattle.std.specs.Prelude.{◌≡◌, IfOk};
ghost use Rattle.coda_record.specs.Spelling.{HasSpelling};
ghost use Rattle.coda_wire.specs.Table.{message as a_message};
ghost use Rattle.coda_letters.specs.Sent.{Waiting, AreLetters};
ghost use Rattle.coda_letters.specs.Calls.{Delivers};

use crate::LetterFault;
use coda_net::{Net, NetFault};
use coda_wire::{Message, WireFault, read};
use std::alloc::Global;

/// Delivers the letter of a number: answers what it says, and leaves it where it is, so that it may be delivered again.
///
/// # Errors
///
/// `NoMessage` exactly where no letter of the number waits, then `LinkDown` exactly where the link of its ends is down, and `BadMessage`
/// where its bytes are no message, which those of a letter that was sent are never. `Memory` may come of itself.
pub fn deliver(alloc: Global, net: &Net, number: u64) -> Result<Message, LetterFault>
    ensures delivers { (waiting : Waiting) → AreLetters waiting net.now → Delivers waiting net.now number result }
    // What a letter says can be spelled, whoever wrote it.
    ensures spelled { IfOk result (λ message. HasSpelling a_message message) }
{
    let letter = match net.deliver(number) {
        Ok(letter) => letter,
        Err(NetFault::NoMessage(_)) => return Err(LetterFault::NoMessage(number)),
        Err(NetFault::LinkDown) => return Err(LetterFault::LinkDown),
        // A delivery trims nothing and takes no memory.
        Err(NetFault::NotShorter(_)) => unreachable!(),
        Err(NetFault::Memory) => unreachable!(),
    };
    match read(alloc, letter.bytes.bytes()) {
        Ok(message) => Ok(message),
        Err(WireFault::BadMessage(at)) => Err(LetterFault::BadMessage(at)),
        Err(WireFault::Memory) => Err(LetterFault::Memory),
    }
}
