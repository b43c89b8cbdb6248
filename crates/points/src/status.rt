//! What the program ends with.
ghost use Rattle.std.specs.Prelude.{◌≡◌};
ghost use Rattle.points.specs.Answers.{ended_of, number_of};

use command_refusals::Refusal;

/// How the program ends.
#[derive(Clone, Copy, Debug, PartialEq, Eq)]
pub enum Ended {
    /// The text was written whole.
    Done,
    /// The words are no name of a source.
    Usage,
    /// The source isn't accepted.
    Source,
    /// The source could not be read.
    ReadFault,
    /// The output could not be written: a beginning of the text may be out.
    WriteFault,
    /// Want of memory.
    Memory,
}

impl Ended {
    /// The exit status: that of `dejavu` for the same answer.
    pub fn number(self) -> u8
        ensures { result ≡ number_of self }
    {
        match self {
            Ended::Done => 0,
            Ended::Usage => 2,
            Ended::Source => 3,
            Ended::ReadFault => 6,
            Ended::WriteFault => 7,
            Ended::Memory => 8,
        }
    }
}

/// How a refusal ends.
pub fn ended_of(refusal: &Refusal) -> Ended
    ensures { result ≡ ended_of refusal.now }
{
    match refusal {
        Refusal::Source(_, _) => Ended::Source,
        Refusal::ReadFault => Ended::ReadFault,
        _ => Ended::Memory,
    }
}
