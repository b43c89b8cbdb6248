//! The arguments of a call, one after the other.
ghost use Rattle.std.specs.Prelude.{◌≡◌, [], map};
ghost use Rattle.csub_tree.specs.Expressions.{expr_tree, exprs_of};
ghost use Rattle.csub_check.specs.Arguments.{after, all_suit, any_misfit, formats, next_fault, next_misfits, next_suits, own_fault, wanted_of};
ghost use Rattle.csub_rules.specs.Views.{the_callee};
ghost use Rattle.csub_check.specs.Seen.{the_sort, the_standing, the_wanted};

use crate::callee::takes;
use crate::format::{first_format, format_fault, is_literal};
use crate::sort::{Sort, is_number, lacks};
use crate::standing::{Standing, is_later, is_whole};
use csub_objects::CType;
use csub_rules::{Callee, Fault, earlier, fault_if};
use csub_text::Span;
use csub_tree::Expr;

/// What is wanted of the arguments that are still to come.
#[derive(Clone, Copy)]
pub(crate) enum Wanted<'t> {
    /// One for each of these parameters.
    Types(&'t [CType]),
    /// A number.
    OneInt,
    /// No argument.
    Nothing,
    /// A format, and then numbers.
    Format,
    /// Numbers.
    Numbers,
}

/// What is wanted of the arguments of a call.
pub(crate) fn wanted_of<'t>(callee: Callee<'t>) -> Wanted<'t>
    ensures { the_wanted result ≡ wanted_of (the_callee callee.entry) }
{
    match callee {
        Callee::Unknown => Wanted::Nothing,
        Callee::User(signature) => Wanted::Types(signature.params.as_slice()),
        Callee::Getchar => Wanted::Nothing,
        Callee::Putchar => Wanted::OneInt,
        Callee::Printf => Wanted::Format,
        Callee::Exit => Wanted::OneInt,
    }
}

/// What is wanted after one argument.
pub(crate) fn after<'t>(wanted: Wanted<'t>) -> Wanted<'t>
    ensures { the_wanted result ≡ after (the_wanted wanted.entry) }
{
    match wanted {
        Wanted::Types(types) => match types.split_first() {
            None => Wanted::Nothing,
            Some((_, rest)) => Wanted::Types(rest),
        },
        Wanted::OneInt => Wanted::Nothing,
        Wanted::Nothing => Wanted::Nothing,
        Wanted::Format => Wanted::Numbers,
        Wanted::Numbers => Wanted::Numbers,
    }
}

/// Whether the next argument suits.
pub(crate) fn next_suits(wanted: Wanted, sort: Sort) -> bool
    ensures { result ≡ next_suits (the_wanted wanted.entry) (the_sort sort.entry) }
{
    match wanted {
        Wanted::Types(types) => match types.split_first() {
            None => false,
            Some((first, _)) => takes(first, sort),
        },
        Wanted::OneInt => is_number(sort),
        Wanted::Nothing => false,
        Wanted::Format => true,
        Wanted::Numbers => is_number(sort),
    }
}

/// Whether the next argument has a sort and isn't taken, or there is no parameter for it.
pub(crate) fn next_misfits(wanted: Wanted, sort: Sort) -> bool
    ensures { result ≡ next_misfits (the_wanted wanted.entry) (the_sort sort.entry) }
{
    match wanted {
        Wanted::Types(types) => match types.split_first() {
            None => true,
            Some((first, _)) => lacks(sort, takes(first, sort)),
        },
        Wanted::OneInt => lacks(sort, is_number(sort)),
        Wanted::Nothing => true,
        Wanted::Format => false,
        Wanted::Numbers => false,
    }
}

/// What the next argument breaks, where it breaks `own` by itself, and `number` where a number is asked for.
pub(crate) fn next_fault(
    wanted: Wanted,
    arg: &Expr,
    own: Option<Fault>,
    number: Option<Fault>,
) -> Option<Fault>
    ensures { result ≡ next_fault (the_wanted wanted.entry) (expr_tree arg.now) own number }
{
    match wanted {
        Wanted::Types(_) => own,
        Wanted::OneInt => own,
        Wanted::Nothing => own,
        Wanted::Format => {
            if is_literal(arg) {
                None
            } else {
                earlier(own, number)
            }
        }
        Wanted::Numbers => earlier(own, number),
    }
}

/// Whether no argument has to come.
pub(crate) fn end_suits(wanted: Wanted) -> bool
    ensures { result ≡ all_suit (the_wanted wanted.entry) [] }
{
    match wanted {
        Wanted::Types(types) => match types.split_first() {
            None => true,
            Some(_) => false,
        },
        Wanted::OneInt => false,
        Wanted::Nothing => true,
        Wanted::Format => true,
        Wanted::Numbers => true,
    }
}

/// Whether there is a parameter for which no argument came.
pub(crate) fn end_misfits(wanted: Wanted) -> bool
    ensures { result ≡ any_misfit (the_wanted wanted.entry) [] }
{
    match wanted {
        Wanted::Types(types) => match types.split_first() {
            None => false,
            Some(_) => true,
        },
        Wanted::OneInt => true,
        Wanted::Nothing => false,
        Wanted::Format => false,
        Wanted::Numbers => false,
    }
}

/// Whether the first argument is a format that asks for the others, where one is wanted.
pub(crate) fn formats(callee: Callee, args: &[Expr]) -> bool
    ensures { result ≡ formats (the_callee callee.entry) (exprs_of (map expr_tree args.now)) }
{
    match callee {
        Callee::Unknown => true,
        Callee::User(_) => true,
        Callee::Getchar => true,
        Callee::Putchar => true,
        Callee::Printf => first_format(args),
        Callee::Exit => true,
    }
}

/// What a call breaks by itself, at the callee's name, where its arguments misfit or not.
pub(crate) fn own_fault(
    standing: Standing,
    at: Span,
    callee: Callee,
    args: &[Expr],
    misfit: bool,
) -> Option<Fault>
    ensures { result ≡ own_fault (the_standing standing) at (the_callee callee.entry) (exprs_of (map expr_tree args.now)) misfit }
{
    match callee {
        Callee::Unknown => fault_if(true, 12, at),
        Callee::User(_) => earlier(
            fault_if(misfit, 13, at),
            fault_if(is_later(standing), 14, at),
        ),
        Callee::Getchar => fault_if(misfit, 13, at),
        Callee::Putchar => fault_if(misfit, 13, at),
        Callee::Printf => format_fault(at, args),
        Callee::Exit => earlier(
            fault_if(misfit, 13, at),
            fault_if(!is_whole(standing), 20, at),
        ),
    }
}
