//! What called names are.
ghost use Rattle.std.specs.Prelude.{◌≡◌};
ghost use Rattle.csub_scopes.specs.Meanings.{scope_of};
ghost use Rattle.csub_scopes.specs.Scopes.{find};
ghost use Rattle.csub_rules.specs.Callees.{callee_of, callee_of_declared};
ghost use Rattle.csub_rules.specs.Views.{the_callee};

use crate::library::{LibraryName, library_name};
use csub_scopes::{Meaning, Scope, Signature};

/// What a called name is.
#[derive(Clone, Copy)]
pub enum Callee<'t> {
    /// No function.
    Unknown,
    /// A function of the source.
    User(&'t Signature),
    /// `getchar` (C11 7.21.7.6).
    Getchar,
    /// `putchar` (C11 7.21.7.8).
    Putchar,
    /// `printf` (C11 7.21.6.3).
    Printf,
    /// `exit` (C11 7.22.4.4).
    Exit,
}

/// What a called name is that is none of the library's.
fn declared_callee<'t>(scope: &'t Scope, name: &[u8]) -> Callee<'t>
    ensures { the_callee result ≡ callee_of_declared (find name.now scope.now.names) }
{
    match scope.names.find(name) {
        None => Callee::Unknown,
        Some(declared) => match &declared.meaning {
            Meaning::Global(_) => Callee::Unknown,
            Meaning::Local(_, _) => Callee::Unknown,
            Meaning::Constant(_) => Callee::Unknown,
            Meaning::Function(signature) => Callee::User(signature),
            Meaning::Untyped => Callee::Unknown,
        },
    }
}

/// What a called name is.
pub fn callee_of<'t>(scope: &'t Scope, name: &[u8]) -> Callee<'t>
    ensures { the_callee result ≡ callee_of (scope_of scope.now) name.now }
{
    match library_name(name) {
        None => declared_callee(scope, name),
        Some(LibraryName::Getchar) => Callee::Getchar,
        Some(LibraryName::Putchar) => Callee::Putchar,
        Some(LibraryName::Printf) => Callee::Printf,
        Some(LibraryName::Exit) => Callee::Exit,
        Some(LibraryName::Eof) => Callee::Unknown,
    }
}
