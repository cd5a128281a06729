// Which answers can be posted.
ghost use Rattle.std.specs.Prelude.{◌≡◌, ◌&&◌, ℕ, true, IfSome};
ghost use Rattle.coda_fid.specs.declared.fid.Fid.{Fid as AFid};
ghost use Rattle.coda_record.specs.Parts.{u8, u64};
ghost use Rattle.coda_record.specs.Spelling.{HasSpelling};
ghost use Rattle.coda_record.specs.Table.{client as a_client, server as a_server, volume as a_volume};
ghost use Rattle.coda_record.specs.Table.{ordinal as an_ordinal, fid as a_fid, verdict as a_verdict};
ghost use Rattle.coda_wire.specs.Table.{message as a_message};
ghost use Rattle.coda_wire.specs.declared.message.Message.TheVariants.{Verdict};
ghost use Rattle.coda_sending.specs.Ending.{verdict_in};
ghost use Rattle.coda_sending.specs.Spelling.{sid_fits, reason_fits, number_fits, last_fits, answer_fits};

use coda_certify::Reason;
use coda_fid::{Fid, Sid};
use coda_record::Answer;

/// The greatest number of a chunk or of an operation.
const GREATEST_NUMBER: u64 = 4_294_967_295;

// A fact of the type of fids: each can be spelled.
fn parts_spelled(volume: u32, vnode: u32, uniq: u32)
    ensures { (f : AFid) → f.volume ≡ volume → f.vnode ≡ vnode → f.uniq ≡ uniq → HasSpelling a_fid f }
{}

// The same of a fid, which is no test.
fn fid_fits(fid: Fid) -> bool
    ensures result { result ≡ true }
    ensures fits { HasSpelling a_fid fid }
{
    parts_spelled(fid.volume, fid.vnode, fid.uniq);
    true
}

// The same of one that may be there.
fn found_fits(found: Option<Fid>) -> bool
    ensures result { result ≡ true }
    ensures fits { IfSome found (HasSpelling a_fid) }
{
    match found {
        Some(fid) => fid_fits(fid),
        None => true,
    }
}

// A fact of the type of counts: each can be spelled.
fn count_fits(count: u64) -> bool
    ensures result { result ≡ true }
    ensures fits { HasSpelling u64 count }
{
    true
}

// A fact of the type of clients' numbers.
fn client_fits(client: u8)
    ensures { HasSpelling u8 client }
{}

// Whether a version is within the ranges of its format.
fn sid_fits(sid: Sid) -> bool
    ensures { result ≡ sid_fits sid }
{
    client_fits(sid.client);
    sid.number <= GREATEST_NUMBER
}

// Whether two versions are.
fn sids_fit(kept: Sid, found: Sid) -> bool
    ensures { result ≡ (sid_fits kept && sid_fits found) }
{
    sid_fits(kept) && sid_fits(found)
}

// Whether a reason is within the ranges of its format: the numbers of versions alone may be too great.
fn reason_fits(why: &Reason) -> bool
    ensures { result ≡ reason_fits why.now }
{
    match why {
        Reason::NoDir(fid) => fid_fits(*fid),
        Reason::Marked(fid) => fid_fits(*fid),
        Reason::NoObject(fid) => fid_fits(*fid),
        Reason::WrongKind(fid) => fid_fits(*fid),
        Reason::NameTaken(fid) => fid_fits(*fid),
        Reason::NameOther(found) => found_fits(*found),
        Reason::FidUsed(fid) => fid_fits(*fid),
        Reason::Changed { kept, found } => sids_fit(*kept, *found),
        Reason::AttrChanged { kept, found } => sids_fit(*kept, *found),
        Reason::NotEmpty => true,
        Reason::Loop => true,
        Reason::VolumeFull(count) => count_fits(*count),
    }
}

// Whether a number is that of an operation.
fn number_fits(number: u64) -> bool
    ensures { result ≡ number_fits number }
{
    number > 0 && number <= GREATEST_NUMBER
}

// Whether a number is a last one.
fn last_fits(last: u64) -> bool
    ensures { result ≡ last_fits last }
{
    last <= GREATEST_NUMBER
}

// Whether an answer is within the ranges of its format.
fn answer_fits(answer: &Answer) -> bool
    ensures { result ≡ answer_fits answer.now }
{
    match answer {
        Answer::Applied => true,
        Answer::Conflict(number, why) => number_fits(*number) && reason_fits(why),
        Answer::Behind(last) => last_fits(*last),
        Answer::Old(last) => last_fits(*last),
    }
}

/// Whether an answer is within the ranges of its format, so that it can be posted: then the message that tells it can
/// be spelled.
pub fn can_be_posted(answer: &Answer) -> bool
    ensures fits { result ≡ answer_fits answer.now }
    ensures posts { result ≡ true → (server client volume number : ℕ)
        → HasSpelling a_server server → HasSpelling a_client client
        → HasSpelling a_volume volume → HasSpelling an_ordinal number
        → HasSpelling a_message (Verdict server client volume number answer.now) }
    ensures takes { result ≡ true → IfSome (verdict_in answer.now) (HasSpelling a_verdict) }
{
    answer_fits(answer)
}
