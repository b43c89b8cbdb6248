//! What a command comes to.
ghost use Rattle.std.specs.Prelude.{◌≡◌, MatchResult, Ok, Err};
ghost use Rattle.dejavu_cli.specs.declared.answer.End.TheVariants.{Whole};

use command_refusals::Refusal;

/// How a command that is done ends.
#[derive(Clone, Copy, Debug, PartialEq, Eq)]
pub enum End {
    /// There is nothing more to say than its text.
    Whole,
    /// A test that `rerun` ran again differs.
    Differs,
    /// The claim that `check` looked at is open.
    Open,
}

/// What a command writes, and how it ends.
#[derive(Drop)]
pub(crate) struct Answer {
    pub text: Vec<u8>,
    pub end: End,
}

/// The answer of a command that has nothing more to say than its text.
pub(crate) fn whole(text: Result<Vec<u8>, Refusal>) -> Result<Answer, Refusal>
    ensures { MatchResult result
        (λ answer. (answer.end ≡ Whole) × (text ≡ Ok answer.text))
        (λ refusal. text ≡ Err refusal) }
{
    Ok(Answer {
        text: text?,
        end: End::Whole,
    })
}
