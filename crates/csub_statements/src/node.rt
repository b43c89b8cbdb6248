//! Statements that have parts of their own, by what these are made of.
ghost use Rattle.std.specs.Prelude.{◌≡◌, ◌++◌, ◌∷◌, [], IfOk, OnOk, map, option_map};
ghost use Rattle.csub_scopes.specs.Meanings.{scope_of};
ghost use Rattle.csub_semantics.specs.Syntax.{local_tree, part_tree, parts, stmt_tree as made_tree};
ghost use Rattle.csub_tree.specs.Declarations.{declare_tree};
ghost use Rattle.csub_tree.specs.Expressions.{expr_tree};
ghost use Rattle.csub_rules.specs.BrokenLocal.{FineDeclare};
ghost use Rattle.csub_rules.specs.BrokenUse.{FineUse};
ghost use Rattle.csub_rules.specs.Declarators.{base_type};
ghost use Rattle.csub_rules.specs.FineStmt.{FinePart};
ghost use Rattle.csub_rules.specs.Locals.{past_declare};
ghost use Rattle.csub_rules.specs.Uses.{as_number, as_part, as_statement};
ghost use Rattle.csub_bodies.specs.Views.{here_of};
ghost use Rattle.csub_resolution.specs.Lines.{declare_parts, eval_part, exits_with, for_test, return_part, third_parts, vars_locals};

use csub_bodies::Here;
use csub_lines::lower_declaration;
use csub_lines::part::{eval_part, for_test, return_part, third_parts};
use csub_lower::{Definitions, Known};
use csub_nodes::node::{Head, part_node, parts_node};
use csub_semantics::{LocalVar, RPart, RStmt};
use csub_text::Span;
use csub_tree::{Declare, Expr};
use csub_types::IntKind;
use std::alloc::{AllocError, Global};

/// A declaration, whose objects are declared and appended.
pub(crate) fn declared_node(
    alloc: Global,
    d: &Declare,
    here: &mut Here,
    locals: &mut Vec<LocalVar>,
    definitions: &Definitions,
) -> Result<Box<RStmt>, AllocError>
    requires { FineDeclare (here_of here.old) (declare_tree d.now) }
    ensures tree { IfOk result (λ made. made_tree made.value ≡ parts (declare_parts definitions.now (here_of here.old) (declare_tree d.now))) }
    ensures past { OnOk result (here_of here.new ≡ past_declare (here_of here.old) (declare_tree d.now)) }
    ensures locals { OnOk result (map local_tree locals.new.items ≡ map local_tree locals.old.items ++ vars_locals (here_of here.old) (base_type (here_of here.old).scope d.now.base) (declare_tree d.now).vars) }
{
    let row = lower_declaration(alloc, here, definitions, d, locals)?;
    parts_node(alloc, row)
}

/// An expression statement.
pub(crate) fn eval_node(alloc: Global, known: Known, e: &Expr) -> Result<Box<RStmt>, AllocError>
    requires { FineUse (scope_of known.scope.now) as_statement (expr_tree e.now) }
    ensures { IfOk result (λ made. made_tree made.value ≡ parts (eval_part known.entry.definitions.now (scope_of known.entry.scope.now) (expr_tree e.now) (exits_with (scope_of known.entry.scope.now) (expr_tree e.now)) ∷ [])) }
{
    part_node(alloc, eval_part(alloc, known, e)?)
}

/// A `return` at a place, in a function that gives this kind, or nothing.
pub(crate) fn return_node(
    alloc: Global,
    known: Known,
    result_kind: Option<IntKind>,
    e: &Option<Expr>,
    span: Span,
) -> Result<Box<RStmt>, AllocError>
    requires { FinePart (scope_of known.scope.now) as_number (option_map expr_tree e.now) }
    ensures { IfOk result (λ made. made_tree made.value ≡ parts (return_part known.entry.definitions.now result_kind (scope_of known.entry.scope.now) (option_map expr_tree e.now) span ∷ [])) }
{
    part_node(alloc, return_part(alloc, known, result_kind, e, span)?)
}

/// What stands in the parentheses of a `for` at a place, behind these parts of its first part.
pub(crate) fn for_head(
    alloc: Global,
    known: Known,
    first: Vec<RPart>,
    span: Span,
    test: &Option<Expr>,
    third: &Option<Expr>,
) -> Result<Head, AllocError>
    requires test { FinePart (scope_of known.scope.now) as_number (option_map expr_tree test.now) }
    requires third { FinePart (scope_of known.scope.now) as_part (option_map expr_tree third.now) }
    ensures first { IfOk result (λ head. map part_tree head.first.items ≡ map part_tree first.items) }
    ensures test { IfOk result (λ head. part_tree head.test.value ≡ for_test known.entry.definitions.now (scope_of known.entry.scope.now) span (option_map expr_tree test.now)) }
    ensures third { IfOk result (λ head. map part_tree head.third.items ≡ third_parts known.entry.definitions.now (scope_of known.entry.scope.now) (option_map expr_tree third.now)) }
{
    let test = for_test(alloc, known, span, test)?;
    let third = third_parts(alloc, known, third)?;
    Ok(Head { first, test, third })
}
