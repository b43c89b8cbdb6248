//! Why lines are refused.
use std::alloc::AllocError;

/// Why the lines at hand are refused.
#[derive(Clone, Copy)]
pub enum Fault {
    /// The first that breaks a rule, counted from 1 at the first line at hand, and the least such rule.
    Broken(u8, u8),
    /// Memory ran out.
    Memory,
}

impl From<AllocError> for Fault {
    ghost use Rattle.std.specs.Prelude.{◌≡◌};
    ghost use Rattle.test_history.specs.declared.fault.Fault.TheVariants.{Memory};

    ghost from_gives = { λ _ error. error ≡ Memory };

    fn from(_error: AllocError) -> Fault {
        Fault::Memory
    }
}
