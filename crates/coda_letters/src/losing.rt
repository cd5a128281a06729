// Letters that are lost.
ghost use Rattle.std.specs.Prelude.{◌≡◌, Some, IfOk};
ghost use Rattle.coda_net.specs.Pool.{letter_at};
ghost use Rattle.coda_letters.specs.Sent.{Waiting, AreLetters};
ghost use Rattle.coda_letters.specs.Calls.{Loses};

use crate::LetterFault;
use coda_net::{Letter, Net};

/// Loses the letter of a number, and hands it over, so that its caller can see whether it was one that may not be lost
/// for the limits.
///
/// # Errors
///
/// `NoMessage` exactly where no letter of the number waits. Nothing changes then.
pub fn lose(net: &mut Net, number: u64) -> Result<Letter, LetterFault>
    ensures lost { (waiting : Waiting) → AreLetters waiting net.old → Loses waiting number result net.new }
    // It is the letter that waited, whatever it says.
    ensures handed { IfOk result (λ letter. letter_at net.old.letters number ≡ Some letter) }
    ensures posted { net.new.posted ≡ net.old.posted }
    ensures links { net.new.links ≡ net.old.links }
{
    match net.lose(number) {
        Ok(letter) => Ok(letter),
        Err(_) => Err(LetterFault::NoMessage(number)),
    }
}
