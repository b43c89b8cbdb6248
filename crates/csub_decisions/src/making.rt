//! Programs of functions and objects of file scope that are not known to be valid.
ghost use Rattle.std.specs.Prelude.{◌≡◌, ◌↔◌, IsSome, IfSome};
ghost use Rattle.csub_semantics.specs.Syntax.{program_tree};
ghost use Rattle.csub_validity.specs.Valid.{IsValid};

use crate::site::Definitions;
use crate::valid::is_valid;
use csub_core::Program;
use csub_semantics::{Function, GlobalVar};

/// A program that is made where its functions and objects of file scope are valid. What is promised of `make` stands at its
/// implementation for [`Program`].
pub trait MakeProgram: Sized {
    /// The program of these functions and objects of file scope, if they are valid.
    fn make(functions: Vec<Function>, globals: Vec<GlobalVar>) -> Option<Self>;
}

impl MakeProgram for Program {
    /// The program of these functions and objects of file scope, and `None` exactly where they are not valid; they are
    /// dropped then. What validity is stands in `specs/Valid` of `csub_validity`.
    ///
    /// The limits on functions, points and edges are looked at first. Beside a few passes over the program this takes a
    /// comparison of names for each two functions, for each two objects of file scope, for each two objects of a
    /// function, for each call and function, and for each use of an object and object that may be meant: up to some 8
    /// million for a function with 4,096 cells. Beside that it passes over a function for each of its labels and each of
    /// its `goto`s, and takes a comparison for each two lines of a `switch`. At last it passes over the types of all
    /// objects for each struct in these types. It takes no memory.
    fn make(functions: Vec<Function>, globals: Vec<GlobalVar>) -> Option<Program>
        ensures exact { IsSome result ↔ IsValid (program_tree (record { functions = functions.items; globals = globals.items })) }
        ensures value { IfSome result (λ program. program ≡ record { functions = functions.items; globals = globals.items }) }
    {
        let definitions = Definitions {
            functions: &functions,
            globals: &globals,
        };
        if is_valid(definitions) {
            Some(Program::of_valid(functions, globals))
        } else {
            None
        }
    }
}
