//! What names are, as objects and constants, and what calls are by what is called.
ghost use Rattle.std.specs.Prelude.{◌≡◌};
ghost use Rattle.csub_scopes.specs.Meanings.{scope_of};
ghost use Rattle.csub_scopes.specs.Scopes.{find};
ghost use Rattle.csub_rules.specs.Callees.{takes};
ghost use Rattle.csub_rules.specs.ExprSorts.{given_by, is_value_declared, is_value_name, sort_of_declared, sort_of_name};
ghost use Rattle.csub_objects.specs.Meaning.{type_tree};
ghost use Rattle.csub_rules.specs.Views.{the_callee};
ghost use Rattle.csub_check.specs.Seen.{the_sort};

use crate::sort::{Sort, has_elements, is_number};
use csub_objects::CType;
use csub_rules::Callee;
use csub_rules::library::{LibraryName, library_name};
use csub_scopes::{Meaning, Scope};
use csub_types::IntKind;

/// What a name is in an expression (C11 6.5.1p2).
#[derive(Clone, Copy)]
pub(crate) struct NameSort<'t> {
    /// Its sort.
    pub(crate) sort: Sort<'t>,
    /// Whether it is an object, a parameter or an enum constant.
    pub(crate) is_value: bool,
}

/// What a name is that is none of the library's.
fn declared_name<'t>(scope: &'t Scope, name: &[u8]) -> NameSort<'t>
    ensures sort { the_sort result.sort ≡ sort_of_declared (find name.now scope.now.names) }
    ensures is_value { result.is_value ≡ is_value_declared (find name.now scope.now.names) }
{
    let (sort, is_value) = match scope.names.find(name) {
        None => (Sort::Unknown, false),
        Some(declared) => match &declared.meaning {
            Meaning::Global(ctype) => (Sort::Place(ctype), true),
            Meaning::Local(_, ctype) => (Sort::Place(ctype), true),
            Meaning::Constant(_) => (Sort::Value(IntKind::Int), true),
            Meaning::Function(_) => (Sort::Unknown, false),
            Meaning::Untyped => (Sort::Unknown, true),
        },
    };
    NameSort { sort, is_value }
}

/// What a name is in an expression.
pub(crate) fn named<'t>(scope: &'t Scope, name: &[u8]) -> NameSort<'t>
    ensures sort { the_sort result.sort ≡ sort_of_name (scope_of scope.now) name.now }
    ensures is_value { result.is_value ≡ is_value_name (scope_of scope.now) name.now }
{
    match library_name(name) {
        None => declared_name(scope, name),
        Some(LibraryName::Eof) => NameSort {
            sort: Sort::Value(IntKind::Int),
            is_value: true,
        },
        Some(_) => NameSort {
            sort: Sort::Unknown,
            is_value: false,
        },
    }
}

/// What a call gives (C11 6.5.2.2p5).
pub(crate) fn given_by<'t>(callee: Callee) -> Sort<'t>
    ensures { the_sort result ≡ given_by (the_callee callee.entry) }
{
    match callee {
        Callee::Unknown => Sort::Unknown,
        Callee::User(signature) => match signature.result {
            None => Sort::Void,
            Some(kind) => Sort::Value(kind),
        },
        Callee::Getchar => Sort::Value(IntKind::Int),
        Callee::Putchar => Sort::Value(IntKind::Int),
        Callee::Printf => Sort::Value(IntKind::Int),
        Callee::Exit => Sort::Unknown,
    }
}

/// Whether a parameter of a type takes an argument (C11 6.5.2.2p2).
pub(crate) fn takes(param: &CType, sort: Sort) -> bool
    ensures { result ≡ takes (type_tree param.now) (the_sort sort.entry) }
{
    match param {
        CType::Num(_) => is_number(sort),
        CType::Array(_, _) => false,
        CType::Struct(_, _) => false,
        CType::Loose(element) => has_elements(sort, element.ctype()),
    }
}
