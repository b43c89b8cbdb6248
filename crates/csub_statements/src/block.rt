//! The lines of blocks.
ghost use Rattle.std.specs.Prelude.{◌≡◌, map};
ghost use Rattle.csub_tree.specs.Expressions.{expr_tree};
ghost use Rattle.csub_tree.specs.Statements.{Block, Switch, stmt_tree, stmts_of};
ghost use Rattle.csub_rules.specs.Here.{entering};
ghost use Rattle.csub_bodies.specs.Views.{here_of};
ghost use Rattle.csub_statements.specs.Resolvable.{ResolvableLine, ResolvableLines};

use csub_bodies::Here;
use csub_tree::{Expr, Stmt};

/// The lines of a block that can be resolved.
pub(crate) fn block_lines<'s>(here: &Here, lines: &'s Vec<Stmt>) -> &'s [Stmt]
    requires { ResolvableLine (here_of here.now) (Block (stmts_of (map stmt_tree lines.now.items))) }
    ensures same { result.now ≡ lines.now.items }
    ensures fine { ResolvableLines (entering (here_of here.now)) (stmts_of (map stmt_tree result.now)) }
{
    lines.as_slice()
}

/// The lines of a `switch` that can be resolved.
pub(crate) fn switch_lines<'s>(here: &Here, e: &Expr, lines: &'s Vec<Stmt>) -> &'s [Stmt]
    requires { ResolvableLine (here_of here.now) (Switch (expr_tree e.now) (stmts_of (map stmt_tree lines.now.items))) }
    ensures same { result.now ≡ lines.now.items }
    ensures fine { ResolvableLines (entering (here_of here.now)) (stmts_of (map stmt_tree result.now)) }
{
    lines.as_slice()
}
