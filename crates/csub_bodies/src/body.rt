//! Bodies of functions.
ghost use Rattle.std.specs.Prelude.{◌≡◌, IfOk, OnOk, map};
ghost use Rattle.csub_rules.specs.Bodies.{body_fault};
ghost use Rattle.csub_rules.specs.Past.{past_lines};
ghost use Rattle.csub_tree.specs.Statements.{stmt_tree, stmts_of};
ghost use Rattle.csub_bodies.specs.Views.{here_of};

use crate::here::Here;
use crate::labels::collect_from_lines;
use crate::statement::check_lines;
use crate::surroundings::Surroundings;
use csub_check::Use;
use csub_rules::{Fault, earlier};
use csub_scopes::Counts;
use csub_tree::Stmt;
use csub_types::IntKind;
use std::alloc::{AllocError, Global};

/// The first rule that the body of a function breaks, which has a result of this kind or none. Its parameters are declared
/// before, in the block of its lines (C11 6.2.1p4). An `Err` is want of memory.
pub fn check_body(
    alloc: Global,
    here: &mut Here,
    result_kind: Option<IntKind>,
    lines: &[Stmt],
) -> Result<Option<Fault>, AllocError>
    ensures fault { IfOk result (λ fault. fault ≡ body_fault result_kind (here_of here.old) (stmts_of (map stmt_tree lines.now))) }
    ensures past { OnOk result (here_of here.new ≡ past_lines (here_of here.old) (stmts_of (map stmt_tree lines.now))) }
{
    let mut labels = Counts::new(alloc);
    let twice = collect_from_lines(&mut labels, lines)?;
    let around = Surroundings {
        result: result_kind,
        labels: &labels,
        statement: Use::Statement,
        can_break: false,
        can_continue: false,
    };
    let fault = check_lines(alloc, here, around, lines)?;
    Ok(earlier(fault, twice))
}
