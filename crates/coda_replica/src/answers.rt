// What is answered to a chunk.
ghost use Rattle.std.specs.Prelude.{◌≡◌, Some};
ghost use Rattle.coda_replica.specs.State.{number_and_verdict};
ghost use Rattle.coda_replica.specs.Answers as answers;

use coda_certify::Verdict;
use coda_record::{Answer, Last};

// A verdict as an answer.
pub(crate) fn answer_of(verdict: Verdict) -> Answer
    ensures { result ≡ answers.answer_of verdict }
{
    match verdict {
        Verdict::Applied => Answer::Applied,
        Verdict::Conflict(number, why) => Answer::Conflict(number, why),
    }
}

// Whether a chunk of this number is the next one behind a client's last one.
pub(crate) fn is_next(last: &Last, number: u64) -> bool
    ensures { result ≡ answers.is_next (number_and_verdict (Some last.now)) number }
{
    number > 0 && number - 1 == last.number
}

// The answer to a chunk that isn't the next one behind a client's last one. No chunk has number 0.
pub(crate) fn told(last: &Last, number: u64) -> Answer
    ensures { result ≡ answers.told (number_and_verdict (Some last.now)) number }
{
    if number > last.number {
        Answer::Behind(last.number)
    } else if number == last.number && number > 0 {
        answer_of(last.verdict)
    } else {
        Answer::Old(last.number)
    }
}
