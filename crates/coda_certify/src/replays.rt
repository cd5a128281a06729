ghost use Rattle.std.specs.Prelude.{◌≡◌, IfOk, OnOk, OnErr};
ghost use Rattle.coda_certify.specs.Replay.{replay as replay_from};
ghost use Rattle.coda_certify.specs.Verdicts.{verdict_of, nodes_left, IsReplayed, ended_of};

use crate::Verdict;
use crate::checks::certify_in;
use crate::effects::{apply_in, start};
use coda_fid::Record;
use coda_tree::{Draft, Volume};
use std::alloc::{AllocError, Global};

// Certifies and applies records in order, up to the first that is refused. Fails for want of memory alone; what was
// applied then stays in the draft.
fn replay_in(
    alloc: Global,
    draft: &mut Draft,
    client: u8,
    recs: &[Record],
) -> Result<Verdict, AllocError>
    ensures verdict { IfOk result (λ v. v ≡ verdict_of (replay_from draft.old.nodes client recs.now)) }
    ensures nodes { OnOk result (IsReplayed draft.new.nodes (replay_from draft.old.nodes client recs.now)) }
    ensures number { draft.new.number ≡ draft.old.number }
    ensures start { draft.new.start ≡ draft.old.start }
{
    for rec in recs {
        if let Some(why) = certify_in(draft.body(), rec) {
            return Ok(Verdict::Conflict(rec.number, why));
        }
        apply_in(alloc, draft, client, rec)?;
    }
    Ok(Verdict::Applied)
}

// The volume that a replay leaves: all of it or nothing. Takes no memory.
fn ended(draft: Draft, verdict: &Result<Verdict, AllocError>) -> Volume
    ensures { result ≡ ended_of draft verdict.now }
{
    match verdict {
        Ok(Verdict::Applied) => draft.commit(),
        Ok(Verdict::Conflict(..)) => draft.roll_back(),
        Err(_) => draft.roll_back(),
    }
}

/// Replays a client's records in order, all or nothing (Kistler and Satyanarayanan 1992).
///
/// Each record is certified after those before it were applied. Where one is refused, the verdict
/// is a conflict that names the first such record with its reason, and the volume stays as it was. Records are applied in place and
/// undone where a later one is refused, so a replay costs its records and not the volume.
///
/// # Errors
///
/// Fails for want of memory alone, and then the volume stays as it was.
pub fn replay(
    alloc: Global,
    volume: &mut Volume,
    client: u8,
    recs: &[Record],
) -> Result<Verdict, AllocError>
    ensures verdict { IfOk result (λ v. v ≡ verdict_of (replay_from volume.old.nodes client recs.now)) }
    ensures volume { OnOk result (volume.new ≡ record volume.old { nodes = nodes_left volume.old.nodes (replay_from volume.old.nodes client recs.now) }) }
    ensures err { OnErr result (volume.new ≡ volume.old) }
{
    let mut draft = start(alloc, volume)?;
    let verdict = replay_in(alloc, &mut draft, client, recs);
    *volume = ended(draft, &verdict);
    verdict
}
