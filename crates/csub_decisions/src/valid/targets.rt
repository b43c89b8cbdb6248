//! Which jumps have a target, and which labels of cases may stand, inside a statement.
ghost use Rattle.std.specs.Prelude.{◌≡◌};
ghost use Rattle.csub_validity.specs.Valid.{in_switch, further_in};

use csub_types::IntKind;
use csub_validity::role::Targets;

/// Outside every loop.
pub(crate) const NO_LOOP: Targets = Targets {
    of_break: false,
    of_continue: false,
    of_case: None,
};

/// In the body of a loop.
pub(crate) const IN_LOOP: Targets = Targets {
    of_break: true,
    of_continue: true,
    of_case: None,
};

/// Among the lines of a `switch` of a kind, which stands where `targets` hold.
pub(crate) fn in_switch(targets: Targets, kind: IntKind) -> Targets
    ensures { result ≡ in_switch kind targets }
{
    Targets {
        of_break: true,
        of_continue: targets.of_continue,
        of_case: Some(kind),
    }
}

/// Inside a statement that is no `switch`, and stands where `targets` hold.
pub(crate) fn further_in(targets: Targets) -> Targets
    ensures { result ≡ further_in targets }
{
    Targets {
        of_case: None,
        ..targets
    }
}
