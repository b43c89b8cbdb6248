//! What stands round a statement.
ghost use Rattle.std.specs.Prelude.{◌≡◌};
ghost use Rattle.csub_rules.specs.StmtFaults.{in_first_part, in_loop, in_switch, is_label};
ghost use Rattle.csub_bodies.specs.Views.{the_surroundings};

use csub_check::Use;
use csub_scopes::Counts;
use csub_types::IntKind;

/// What stands round a statement.
#[derive(Clone, Copy)]
pub struct Surroundings<'l> {
    /// The kind of the function's result; none where it gives nothing.
    pub result: Option<IntKind>,
    /// The labels of the function.
    pub labels: &'l Counts,
    /// What an expression statement stands as: a whole statement, or the first part of a `for`.
    pub statement: Use,
    /// Whether it stands in a loop or a `switch`.
    pub can_break: bool,
    /// Whether it stands in a loop.
    pub can_continue: bool,
}

/// The same, in a loop.
pub(crate) fn in_loop<'l>(around: Surroundings<'l>) -> Surroundings<'l>
    ensures { the_surroundings result ≡ in_loop (the_surroundings around.entry) }
{
    Surroundings {
        result: around.result,
        labels: around.labels,
        statement: around.statement,
        can_break: true,
        can_continue: true,
    }
}

/// The same, in a `switch`.
pub(crate) fn in_switch<'l>(around: Surroundings<'l>) -> Surroundings<'l>
    ensures { the_surroundings result ≡ in_switch (the_surroundings around.entry) }
{
    Surroundings {
        result: around.result,
        labels: around.labels,
        statement: around.statement,
        can_break: true,
        can_continue: around.can_continue,
    }
}

/// The same, in the first part of a `for`.
pub(crate) fn in_first_part<'l>(around: Surroundings<'l>) -> Surroundings<'l>
    ensures { the_surroundings result ≡ in_first_part (the_surroundings around.entry) }
{
    Surroundings {
        result: around.result,
        labels: around.labels,
        statement: Use::Part,
        can_break: around.can_break,
        can_continue: around.can_continue,
    }
}

/// Whether a label of the function has a name.
#[tactic(auto, using(crate::proofs::Counted::any_counted))]
pub(crate) fn is_label(around: Surroundings, name: &[u8]) -> bool
    ensures { result ≡ is_label around.entry.labels.now name.now }
{
    around.labels.count(name) > 0
}
