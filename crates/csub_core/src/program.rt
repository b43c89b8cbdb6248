//! A program, which keeps its validity.
ghost use Rattle.std.specs.Prelude.{◌≡◌};
ghost use Rattle.csub_semantics.specs.Syntax.{program_tree};
ghost use Rattle.csub_validity.specs.Valid.{IsValid};

use csub_semantics::{Function, GlobalVar};
use std::marker::Model;

/// A valid program: `#start`, which calls `main`, and then the defined functions in the order of the source; and the
/// objects of file scope in that order. Contracts see both lists; what validity is stands in `specs/Valid` of
/// `csub_validity`.
pub struct Program {
    functions: Vec<Function>,
    globals: Vec<GlobalVar>,
}

impl Drop for Program {
    fn drop(self) {
        let Program {
            functions: _,
            globals: _,
        } = self;
    }
}

impl Model for Program {
    ghost use Rattle.std.specs.Coded.{codes};
    ghost use Rattle.csub_objects.specs.Codes.{type_code, members_code};
    ghost use Rattle.csub_semantics.specs.contracts.expression.RExpr as expr;
    ghost use Rattle.csub_semantics.specs.contracts.function.RStmt as stmt;
    ghost use Rattle.csub_semantics.specs.Syntax.{ProgramParts, program_tree};
    ghost use Rattle.csub_validity.specs.Valid.{IsValid};

    ghost Value = { ProgramParts };

    ghost coded = { Prim.hlevel (codes, type_code, members_code, expr.the_row.coded, stmt.the_row.coded) };

    ghost view = { λ p. record { functions = p.functions.items; globals = p.globals.items } };

    ghost invariant = { λ p. IsValid (program_tree (record { functions = p.functions.items; globals = p.globals.items })) };
}

impl Program {
    /// The program of valid functions and objects of file scope, for whoever has shown that they are. Nothing is tested.
    pub fn of_valid(functions: Vec<Function>, globals: Vec<GlobalVar>) -> Program
        requires { IsValid (program_tree (record { functions = functions.items; globals = globals.items })) }
        ensures { result ≡ record { functions = functions.items; globals = globals.items } }
    {
        Program { functions, globals }
    }

    /// The functions: number 0 is `#start`, the others stand in the order of the source.
    pub fn functions(&self) -> &[Function]
        ensures value { result.now ≡ self.now.functions }
        ensures valid { IsValid (program_tree self.now) }
    {
        self.functions.as_slice()
    }

    /// The objects of file scope, in the order of the source, with their initial contents.
    pub fn globals(&self) -> &[GlobalVar]
        ensures { result.now ≡ self.now.globals }
    {
        self.globals.as_slice()
    }
}
