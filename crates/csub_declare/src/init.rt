//! Initialisers (C11 6.7.9).
ghost use Rattle.std.specs.Prelude.{◌≡◌, map, option_map};
ghost use Rattle.csub_objects.specs.Meaning.{type_tree};
ghost use Rattle.csub_rules.specs.Initialisers.{entries_fault, fills, init_fault, lacks_list, use_at, value_fault};
ghost use Rattle.csub_scopes.specs.Meanings.{scope_of};
ghost use Rattle.csub_tree.specs.Declarations.{init_tree, inits_of};
ghost use Rattle.csub_tree.specs.Expressions.{expr_tree};
ghost use Rattle.csub_check.specs.Seen.{the_use};

use csub_check::sort::is_sorted;
use csub_check::{Standing, Use, check, check_use};
use csub_objects::{CType, has_parts, part_type};
use csub_rules::{Fault, earlier, fault_if};
use csub_scopes::Scope;
use csub_tree::{Expr, Init};

/// What an initialiser's expression stands for: a constant at file scope (C11 6.7.9p4).
fn use_at(file: bool) -> Use
    ensures { the_use result ≡ use_at file }
{
    if file { Use::Constant } else { Use::Number }
}

/// Whether an expression initialises an array or a struct.
fn lacks_list(scope: &Scope, ctype: &CType, e: &Expr) -> bool
    ensures { result ≡ lacks_list (scope_of scope.now) (type_tree ctype.now) (expr_tree e.now) }
{
    let sorted = is_sorted(check(scope, Standing::Operand, e).sort);
    let is_number = matches!(ctype, CType::Num(_));
    sorted && !is_number
}

/// An expression as an initialiser.
fn check_value(scope: &Scope, file: bool, ctype: Option<&CType>, e: &Expr) -> Option<Fault>
    ensures { result ≡ value_fault (scope_of scope.now) file (option_map (λ t. type_tree t.now) ctype.entry) (expr_tree e.now) }
{
    let ctype = ctype?;
    earlier(
        check_use(scope, use_at(file), e),
        fault_if(lacks_list(scope, ctype, e), 11, e.span),
    )
}

/// The entries of a list, for an object of a type: whether each has a part, and the first rule that one breaks.
#[derive(Clone, Copy)]
struct Entries {
    fills: bool,
    fault: Option<Fault>,
}

/// The first rule that an initialiser breaks, at file scope or not, for an object of a type: M11, or what an expression
/// breaks. Nothing is said of what has no type. It takes no memory.
#[cycle(check_init)]
pub fn check_init(scope: &Scope, file: bool, ctype: Option<&CType>, init: &Init) -> Option<Fault>
    ensures { result ≡ init_fault (scope_of scope.now) file (option_map (λ t. type_tree t.now) ctype.entry) (init_tree init.now) }
{
    match init {
        Init::One(e) => check_value(scope, file, ctype, e),
        Init::List(entries, span) => {
            let ctype = ctype?;
            let found = check_entries(scope, file, ctype, entries.as_slice());
            let misfits = !(has_parts(ctype) && found.fills);
            earlier(fault_if(misfits, 11, *span), found.fault)
        }
    }
}

#[cycle(check_init)]
fn check_entries(scope: &Scope, file: bool, ctype: &CType, entries: &[Init]) -> Entries
    ensures fills { result.fills ≡ fills (type_tree ctype.now) 0 (inits_of (map init_tree entries.now)) }
    ensures fault { result.fault ≡ entries_fault (scope_of scope.now) file (type_tree ctype.now) 0 (inits_of (map init_tree entries.now)) }
{
    let mut fills = true;
    let mut least = None;
    let mut i = 0;
    for entry in entries {
        let part = part_type(ctype, i);
        fills &= part.is_some();
        least = earlier(least, check_init(scope, file, part, entry));
        i += 1;
    }
    Entries {
        fills,
        fault: least,
    }
}
