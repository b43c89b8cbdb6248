//! Bodies of functions.
ghost use Rattle.std.specs.Prelude.{◌≡◌, IfOk, OnOk, map};
ghost use Rattle.csub_tree.specs.Statements.{stmt_tree, stmts_of};
ghost use Rattle.csub_types.specs.declared.kind.IntKind.TheVariants.{Int};
ghost use Rattle.csub_semantics.specs.Syntax.{local_tree, stmt_tree as made_tree, stmts_of as made_lines};
ghost use Rattle.csub_rules.specs.Bodies.{FineBody};
ghost use Rattle.csub_rules.specs.Past.{past_lines};
ghost use Rattle.csub_bodies.specs.Views.{here_of};
ghost use Rattle.csub_resolution.specs.Lines.{lines as lines_of, locals_lines};
ghost use Rattle.csub_resolution.specs.Programs.{most_temps, parts_of_all};

use crate::statement::{Within, lower_lines};
use csub_bodies::Here;
use csub_lower::Definitions;
use csub_nodes::temps::lines_temps;
use csub_semantics::{LocalVar, RStmt};
use csub_tree::Stmt;
use csub_types::IntKind;
use std::alloc::{AllocError, Global};

/// The body of a function.
#[derive(Drop)]
pub struct Body {
    /// Its lines.
    pub lines: Vec<RStmt>,
    /// The function's objects other than its parameters, in the order of the source.
    pub locals: Vec<LocalVar>,
    /// The most temporaries of one of its parts.
    pub temps: u32,
}

/// What the body of a function that breaks no rule stands for, which has a result of this kind or none. Its parameters are
/// declared before, in the block of its lines (C11 6.2.1p4). An `Err` is want of memory, or a full count.
pub fn lower_body(
    alloc: Global,
    here: &mut Here,
    definitions: &Definitions,
    result_kind: Option<IntKind>,
    lines: &[Stmt],
) -> Result<Body, AllocError>
    requires { FineBody result_kind (here_of here.old) (stmts_of (map stmt_tree lines.now)) }
    ensures lines { IfOk result (λ body. made_lines (map made_tree body.lines.items) ≡ lines_of definitions.now result_kind Int (here_of here.old) (stmts_of (map stmt_tree lines.now))) }
    ensures locals { IfOk result (λ body. map local_tree body.locals.items ≡ locals_lines (here_of here.old) (stmts_of (map stmt_tree lines.now))) }
    ensures temps { IfOk result (λ body. body.temps ≡ most_temps (parts_of_all (lines_of definitions.now result_kind Int (here_of here.old) (stmts_of (map stmt_tree lines.now))))) }
    ensures past { OnOk result (here_of here.new ≡ past_lines (here_of here.old) (stmts_of (map stmt_tree lines.now))) }
{
    let within = Within {
        definitions,
        result: result_kind,
    };
    let mut locals = Vec::new(alloc);
    let made = lower_lines(alloc, lines, here, &mut locals, within, IntKind::Int)?;
    let temps = lines_temps(made.as_slice())?;
    Ok(Body {
        lines: made,
        locals,
        temps,
    })
}
