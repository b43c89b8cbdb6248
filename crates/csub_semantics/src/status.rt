//! How a run ends.
use csub_types::Trap;

/// How a run ends.
#[derive(Clone, Copy, Debug, PartialEq, Eq)]
pub enum Status {
    /// With an exit status: the low 8 bits of what `main` returned or `exit` was given.
    Exit(u8),
    /// By a trap.
    Trap(Trap),
    /// Its budget of turns was used up.
    Turns,
}
