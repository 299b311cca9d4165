//! The answer to a question as text.

ghost use Rattle.std.specs.Prelude.{◌≡◌};

use pipe_global::Journals;
use pipe_run::TextOutput;

/// The answer to a question as text: what stands in front, and the lines of the groups.
#[derive(Drop)]
pub struct AnswerText {
    pub head: Vec<u8>,
    pub groups: TextOutput,
}

/// The journals of the run that was answered.
pub fn journals_of(answer: AnswerText) -> Journals
    ensures { result ≡ answer.groups.journals }
{
    let AnswerText { head, groups } = answer;
    let TextOutput { text, journals, .. } = groups;
    drop(text);
    drop(head);
    journals
}
