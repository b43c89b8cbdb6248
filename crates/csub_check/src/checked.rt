//! What is found of an expression.
ghost use Rattle.std.specs.Prelude.{◌≡◌};
ghost use Rattle.csub_rules.specs.ExprFaults.{lacks_array, lacks_member, lacks_number, lacks_place};
ghost use Rattle.csub_rules.specs.Faults.{fault_if};
ghost use Rattle.csub_check.specs.Seen.{the_sort};

use crate::sort::{Sort, has_member, is_array, is_number, is_number_place, lacks};
use csub_rules::{Fault, fault_if};
use csub_text::Span;
use csub_tree::Name;

/// What an expression is, the first rule that it breaks, and where it stands.
#[derive(Clone, Copy)]
pub struct Checked<'t> {
    /// What it is.
    pub sort: Sort<'t>,
    /// The first rule that it or a part of it breaks; none where nothing is broken.
    pub fault: Option<Fault>,
    /// Where it stands.
    pub span: Span,
}

/// M7 where a number is asked for.
pub(crate) fn number_fault(checked: Checked) -> Option<Fault>
    ensures { result ≡ fault_if (lacks_number (the_sort checked.entry.sort)) 7 checked.entry.span }
{
    let broken = lacks(checked.sort, is_number(checked.sort));
    fault_if(broken, 7, checked.span)
}

/// M8 where a place of a number is asked for.
pub(crate) fn place_fault(checked: Checked) -> Option<Fault>
    ensures { result ≡ fault_if (lacks_place (the_sort checked.entry.sort)) 8 checked.entry.span }
{
    let broken = lacks(checked.sort, is_number_place(checked.sort));
    fault_if(broken, 8, checked.span)
}

/// M6 of what stands before the brackets of an index expression.
pub(crate) fn array_fault(sort: Sort, at: Span) -> Option<Fault>
    ensures { result ≡ fault_if (lacks_array (the_sort sort.entry)) 6 at }
{
    fault_if(lacks(sort, is_array(sort)), 6, at)
}

/// M6 of what stands in the brackets of an index expression.
pub(crate) fn index_fault(sort: Sort, at: Span) -> Option<Fault>
    ensures { result ≡ fault_if (lacks_number (the_sort sort.entry)) 6 at }
{
    fault_if(lacks(sort, is_number(sort)), 6, at)
}

/// M5 of what stands before the `.` and a member's name.
pub(crate) fn member_fault(sort: Sort, member: &Name) -> Option<Fault>
    ensures { result ≡ fault_if (lacks_member member.now.text (the_sort sort.entry)) 5 member.now.span }
{
    let broken = lacks(sort, has_member(sort, member.text.bytes()));
    fault_if(broken, 5, member.span)
}
