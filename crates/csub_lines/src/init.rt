//! Initialisers of objects of functions (C11 6.7.9).
ghost use Rattle.std.specs.Prelude.{◌≡◌, ◌+◌, ◌++◌, IfOk, OnOk, length, map};
ghost use Rattle.csub_scopes.specs.Meanings.{scope_of};
ghost use Rattle.csub_semantics.specs.Labels.{init_tree as made_tree, inits_of as made_list};
ghost use Rattle.csub_semantics.specs.Syntax.{call_at};
ghost use Rattle.csub_tree.specs.Declarations.{Listed, init_tree, inits_of};
ghost use Rattle.csub_resolution.specs.Contents.{init_calls, init_count, init_value, init_values, inits_calls, inits_count};
ghost use Rattle.csub_lines.specs.Numbers.{AllNumbers, AreNumbers};

use csub_lower::{Known, lower_number};
use csub_nodes::{list_value, one_value};
use csub_scopes::Scope;
use csub_semantics::{RCall, RInit};
use csub_text::Span;
use csub_tree::Init;
use std::alloc::{AllocError, Global};

/// The entries of a list, which are numbers.
fn entries_of<'e>(scope: &Scope, entries: &'e Vec<Init>, span: Span) -> &'e [Init]
    requires { AreNumbers (scope_of scope.now) (Listed (inits_of (map init_tree entries.now.items)) span) }
    ensures same { result.now ≡ entries.now.items }
    ensures numbers { AllNumbers (scope_of scope.now) (inits_of (map init_tree result.now)) }
{
    entries.as_slice()
}

/// What an initialiser that breaks no rule stands for. The calls of the source's functions that are made before are appended,
/// in their order. An `Err` is want of memory, or more than 4,294,967,295 calls; what was appended then means nothing.
#[cycle(lower_init)]
pub(crate) fn lower_init(
    alloc: Global,
    known: Known,
    init: &Init,
    made: &mut Vec<RCall>,
) -> Result<Box<RInit>, AllocError>
    requires { AreNumbers (scope_of known.scope.now) (init_tree init.now) }
    ensures tree { IfOk result (λ value. made_tree value.value ≡ init_value (scope_of known.entry.scope.now) (length made.old.items) (init_tree init.now)) }
    ensures calls { OnOk result (map call_at made.new.items ≡ map call_at made.old.items ++ init_calls known.entry.definitions.now (scope_of known.entry.scope.now) (length made.old.items) (init_tree init.now)) }
    ensures count { OnOk result (length made.new.items ≡ length made.old.items + init_count (scope_of known.entry.scope.now) (init_tree init.now)) }
{
    match init {
        Init::One(e) => one_value(alloc, lower_number(alloc, known, e, made)?),
        Init::List(entries, span) => {
            let entries = entries_of(known.scope, entries, *span);
            list_value(alloc, lower_entries(alloc, known, entries, made)?)
        }
    }
}

/// The same of the entries of a list.
#[cycle(lower_init)]
fn lower_entries(
    alloc: Global,
    known: Known,
    entries: &[Init],
    made: &mut Vec<RCall>,
) -> Result<Vec<RInit>, AllocError>
    requires { AllNumbers (scope_of known.scope.now) (inits_of (map init_tree entries.now)) }
    ensures trees { IfOk result (λ values. made_list (map made_tree values.items) ≡ init_values (scope_of known.entry.scope.now) (length made.old.items) (inits_of (map init_tree entries.now))) }
    ensures calls { OnOk result (map call_at made.new.items ≡ map call_at made.old.items ++ inits_calls known.entry.definitions.now (scope_of known.entry.scope.now) (length made.old.items) (inits_of (map init_tree entries.now))) }
    ensures count { OnOk result (length made.new.items ≡ length made.old.items + inits_count (scope_of known.entry.scope.now) (inits_of (map init_tree entries.now))) }
{
    let mut values = Vec::new(alloc);
    for entry in entries {
        let value = lower_init(alloc, known, entry, made)?;
        values.push(Box::into_inner(value))?;
    }
    Ok(values)
}
