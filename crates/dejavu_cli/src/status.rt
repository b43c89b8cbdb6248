//! What the program ends with.
ghost use Rattle.std.specs.Prelude.{◌≡◌};
ghost use Rattle.dejavu_cli.specs.Statuses.{done_as, number_of, status_of};

use crate::answer::End;
use command_refusals::Refusal;

/// How a call of [`dejavu`](crate::dejavu) ended.
#[derive(Clone, Copy, Debug, PartialEq, Eq)]
pub enum Status8 {
    /// The text of the command was written whole.
    Done,
    /// A test that was run again did otherwise than its entry says.
    Differs,
    /// The words are no command.
    Usage,
    /// A named source isn't accepted.
    Source,
    /// The suite's bytes are no suite.
    Suite,
    /// The history's bytes are no history of the source, or it lacks the test.
    History,
    /// A file could not be read.
    ReadFault,
    /// The output could not be written: a beginning of the text may be out.
    WriteFault,
    /// Want of memory.
    Memory,
    /// What the command makes would have more bytes than it may have.
    TooMuch,
    /// The certificate's bytes are no certificate of the sources.
    Certificate,
    /// A claim isn't closed.
    Open,
}

impl Status8 {
    /// The exit status of the program: 0 to 11, in the order of the variants.
    pub fn number(self) -> u8
        ensures { result ≡ number_of self }
    {
        match self {
            Status8::Done => 0,
            Status8::Differs => 1,
            Status8::Usage => 2,
            Status8::Source => 3,
            Status8::Suite => 4,
            Status8::History => 5,
            Status8::ReadFault => 6,
            Status8::WriteFault => 7,
            Status8::Memory => 8,
            Status8::TooMuch => 9,
            Status8::Certificate => 10,
            Status8::Open => 11,
        }
    }
}

/// The status of a command that is done.
pub(crate) fn done_as(end: End) -> Status8
    ensures { result ≡ done_as end }
{
    match end {
        End::Whole => Status8::Done,
        End::Differs => Status8::Differs,
        End::Open => Status8::Open,
    }
}

/// The status of a refusal.
pub(crate) fn refusal_status(refusal: &Refusal) -> Status8
    ensures { result ≡ status_of refusal.now }
{
    match refusal {
        Refusal::Usage => Status8::Usage,
        Refusal::Source(_, _) => Status8::Source,
        Refusal::Suite(_) => Status8::Suite,
        Refusal::History(_) | Refusal::NoTest(_) => Status8::History,
        Refusal::Certificate(_) => Status8::Certificate,
        Refusal::ReadFault => Status8::ReadFault,
        Refusal::Memory => Status8::Memory,
        Refusal::TooMuch(_, _) => Status8::TooMuch,
    }
}
