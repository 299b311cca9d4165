//! How what is asked is run.

ghost use Rattle.std.specs.Prelude.{◌≡◌};
ghost use Rattle.lavzimo_words.specs.Asked.{question_seen};
ghost use Rattle.lavzimo_answer.specs.Asking as spec;

use lavzimo_words::Question;

/// A number, or the nearest within bounds.
fn within(low: usize, high: usize, number: usize) -> usize
    ensures { result ≡ spec.within low high number }
{
    low.max(high.min(number))
}

/// How many workers there are: as many as processors, where it isn't said.
pub(crate) fn workers_of(processors: usize, said: Option<usize>) -> usize
    ensures { result ≡ spec.workers_of processors said }
{
    within(1, 256, said.unwrap_or(processors))
}

/// How many partitions there are.
pub(crate) fn partitions_of(question: &Question, said: usize) -> usize
    ensures { result ≡ spec.partitions_of (question_seen question.now) said }
{
    match question {
        Question::Columns(_) => within(1, 4096, said),
        Question::File(_) => 1,
    }
}
