// Replies, and refusals as replies.
ghost use Rattle.std.specs.Prelude.{◌≡◌, ◌≢◌, ◌∷◌, [], IfOk, Ok, Err};
ghost use Rattle.coda_cell.specs.Refusing.{refusal};
ghost use Rattle.coda_cell.specs.Sending.{reply_answer};
ghost use Rattle.coda_cell.specs.Messages.{reply_taken};
ghost use Rattle.coda_cell.specs.Refused as refused;
ghost use Rattle.coda_cell.specs.Refusing.{client_refused_as};
ghost use Rattle.coda_shelves.specs.Lines.{refused_down, refused_full, refused_fault};
ghost use Rattle.coda_site.specs.Totals.{IsFault};
ghost use Rattle.coda_script.specs.declared.reply.Arg.{Arg as AnArg};
ghost use Rattle.coda_script.specs.declared.reply.Reply.TheVariants as reply;

use crate::fault::CellFault;
use coda_certify::Verdict;
use coda_fid::Fid;
use coda_record::Answer;
use coda_replica::ReplicaFault;
use coda_script::{Answer as ReplyAnswer, Arg, Args, Numbers, Refusal, Reply, Undecided};
use coda_venus::Refused;
use std::alloc::{AllocError, Global};

/// The refusal that names nothing.
pub fn refuse(alloc: Global, refusal: Refusal) -> Reply
    ensures { result ≡ reply.Refused refusal [] }
{
    Reply::Refused {
        refusal,
        args: Args::from_vec(Vec::new(alloc)),
    }
}

/// The refusal that names a number. Fails for want of memory alone.
pub fn refuse_number(alloc: Global, refusal: Refusal, number: u64) -> Result<Reply, AllocError>
    ensures { IfOk result (λ said. said ≡ reply.Refused refusal (AnArg.Number number ∷ [])) }
{
    let args = vec![in alloc; Arg::Number(number)]?;
    Ok(Reply::Refused {
        refusal,
        args: Args::from_vec(args),
    })
}

/// The refusal that names two numbers. Fails for want of memory alone.
pub fn refuse_numbers(
    alloc: Global,
    refusal: Refusal,
    first: u64,
    second: u64,
) -> Result<Reply, AllocError>
    ensures { IfOk result (λ said. said ≡ reply.Refused refusal (AnArg.Number first ∷ AnArg.Number second ∷ [])) }
{
    let args = vec![in alloc; Arg::Number(first), Arg::Number(second)]?;
    Ok(Reply::Refused {
        refusal,
        args: Args::from_vec(args),
    })
}

/// The refusal that names an object. Fails for want of memory alone.
pub fn refuse_object(alloc: Global, refusal: Refusal, fid: Fid) -> Result<Reply, AllocError>
    ensures { IfOk result (λ said. said ≡ reply.Refused refusal (AnArg.Object fid ∷ [])) }
{
    let args = vec![in alloc; Arg::Object(fid)]?;
    Ok(Reply::Refused {
        refusal,
        args: Args::from_vec(args),
    })
}

/// The refusal for an actor that isn't there. Fails for want of memory alone.
pub fn no_such_actor(alloc: Global, number: u32) -> Result<Reply, AllocError>
    ensures { IfOk result (λ said. said ≡ refusal (refused.NoSuchActor number)) }
{
    refuse_number(alloc, Refusal::NoSuchActor, u64::from(number))
}

/// The refusal of a client as a line is refused for it.
///
/// # Errors
///
/// `Memory` where the client had none, or there is none for the reply.
pub fn refused(alloc: Global, why: Refused) -> Result<Reply, CellFault>
    ensures own { why ≢ Refused.Down → why ≢ Refused.DiskFault
        → IfOk result (λ said. said ≡ refusal (client_refused_as why)) }
    ensures down { why ≡ Refused.Down → IfOk result (λ said. said ≡ refused_down) }
    ensures fault { why ≡ Refused.DiskFault → IfOk result (λ said. said ≡ refused_fault) }
    ensures memory { why ≡ Refused.Memory → result ≡ Err CellFault.Memory }
    ensures only { result ≢ Err CellFault.Bay }
    ensures cause { IsFault result → why ≡ Refused.DiskFault }
{
    let said = match why {
        Refused::Down => refuse(alloc, Refusal::Down),
        Refused::TooBig(length) => refuse_number(alloc, Refusal::TooBig, length)?,
        Refused::NotFound => refuse(alloc, Refusal::NotFound),
        Refused::NotDir => refuse(alloc, Refusal::NotDir),
        Refused::Exists => refuse(alloc, Refusal::Exists),
        Refused::IsDir => refuse(alloc, Refusal::IsDir),
        Refused::NotFile => refuse(alloc, Refusal::NotFile),
        Refused::NotEmpty => refuse(alloc, Refusal::NotEmpty),
        Refused::Loop => refuse(alloc, Refusal::Loop),
        Refused::Need(fid) => refuse_object(alloc, Refusal::Miss, fid)?,
        Refused::LogFull => refuse(alloc, Refusal::LogFull),
        Refused::JournalFull => refuse(alloc, Refusal::JournalFull),
        Refused::DiskFault => refuse(alloc, Refusal::DiskFault),
        Refused::Frozen(number, home) => {
            refuse_numbers(alloc, Refusal::Frozen, number, u64::from(home))?
        }
        Refused::Nothing => refuse(alloc, Refusal::Nothing),
        Refused::Young(age, window) => refuse_numbers(alloc, Refusal::Young, age, window)?,
        Refused::NotFrozen(number) => refuse_number(alloc, Refusal::NotFrozen, number)?,
        Refused::WrongNumber(kept, number) => {
            refuse_numbers(alloc, Refusal::WrongNumber, kept, number)?
        }
        Refused::Memory => return Err(CellFault::Memory),
    };
    Ok(said)
}

/// An answer as it is replied.
pub fn reply_answer(answer: Answer) -> ReplyAnswer
    ensures { result ≡ reply_answer answer }
{
    match answer {
        Answer::Applied => ReplyAnswer::Decided(Verdict::Applied),
        Answer::Conflict(number, why) => ReplyAnswer::Decided(Verdict::Conflict(number, why)),
        Answer::Behind(last) => ReplyAnswer::Behind(last),
        Answer::Old(last) => ReplyAnswer::Old(last),
    }
}

/// The reply to an answer that a client took.
pub fn reply_taken(chunk: u64, answer: Answer) -> Reply
    ensures { result ≡ reply_taken chunk answer }
{
    let why = match answer {
        Answer::Applied => {
            let verdict = Verdict::Applied;
            return Reply::Settled { chunk, verdict };
        }
        Answer::Conflict(refused, why) => {
            let verdict = Verdict::Conflict(refused, why);
            return Reply::Settled { chunk, verdict };
        }
        Answer::Behind(last) => Undecided::Behind(last),
        Answer::Old(last) => Undecided::Old(last),
    };
    Reply::StillFrozen { chunk, why }
}

/// Why a replica doesn't answer a chunk, as a line is refused for it.
///
/// # Errors
///
/// `Memory` where the replica had none. It is never asked for a node.
pub fn unruled(alloc: Global, why: ReplicaFault) -> Result<Reply, CellFault>
    ensures down { why ≡ ReplicaFault.Down → result ≡ Ok refused_down }
    ensures full { why ≡ ReplicaFault.JournalFull → result ≡ Ok refused_full }
    ensures fault { why ≡ ReplicaFault.DiskFault → result ≡ Ok refused_fault }
    ensures memory { why ≡ ReplicaFault.Memory → result ≡ Err CellFault.Memory }
    ensures only { result ≢ Err CellFault.Bay }
    ensures cause { IsFault result → why ≡ ReplicaFault.DiskFault }
{
    match why {
        ReplicaFault::Down => Ok(refuse(alloc, Refusal::Down)),
        ReplicaFault::JournalFull => Ok(refuse(alloc, Refusal::JournalFull)),
        ReplicaFault::DiskFault => Ok(refuse(alloc, Refusal::DiskFault)),
        ReplicaFault::NotFound => Err(CellFault::Memory),
        ReplicaFault::Memory => Err(CellFault::Memory),
    }
}
