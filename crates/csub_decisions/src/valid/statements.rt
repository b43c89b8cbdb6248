//! Whether statements have a label only where there is a point of its kind.
ghost use Rattle.std.specs.Prelude.{◌≡◌, ◌↔◌, ◌<◌, ◌≤◌, ◌+◌, All, IsTrue, true, false, length, map};
ghost use Rattle.std.specs.Option.{option_map};
ghost use Rattle.csub_objects.specs.Meaning.{type_tree};
ghost use Rattle.csub_semantics.specs.Trees.{owner_tree};
ghost use Rattle.csub_semantics.specs.Labels.{answer_tree, init_tree, label_tree};
ghost use Rattle.csub_semantics.specs.Syntax.{part_tree, stmt_tree, stmts_of, function_tree};
ghost use Rattle.csub_validity.specs.declared.role.Role.TheVariants.{Effect};
ghost use Rattle.csub_validity.specs.Valid.{scope_of, declares, IsAnswer, IsInitialised, IsLast, IsPart, AreParts, IsForHead, IsStmt, stmt_count, most_entries};
ghost use Rattle.csub_decisions.specs.Checks.{tree_of, scope_at};
ghost use Rattle.csub_decisions.specs.ProgramChecks.{declared_own, IsEnd, AreTogether, IsOneStep, IsSwitch};

use crate::calls::{are_calls, is_call};
use crate::expressions::is_expr;
use crate::inits::is_init;
use crate::objects::is_local;
use crate::site::{Definitions, Site};
use crate::valid::cases::{are_cases, is_case, switch_kind};
use crate::valid::labels::{has_label, is_jump};
use crate::valid::targets::{IN_LOOP, further_in, in_switch};
use csub_semantics::{Answer, CType, Function, Label, Owner, RInit, RPart, RStmt};
use csub_validity::role::{Role, Targets};

/// The most statements of a list, and the most parts of a statement.
const MOST_ENTRIES: usize = 1_048_576;

/// Whether a statement of `function` is valid in the program.
#[cycle(stmts)]
fn is_stmt(program: Definitions<'_>, function: &Function, targets: Targets, stmt: &RStmt) -> bool
    ensures { IsTrue result ↔ IsStmt (tree_of program.entry) (function_tree function.now) targets (stmt_tree stmt.now) }
{
    let inner = further_in(targets);
    match stmt {
        RStmt::Parts(parts) => are_parts(program, function, Role::Whole, parts),
        RStmt::Block(stmts) => has_few_stmts(stmts) && are_stmts(program, function, inner, stmts),
        RStmt::If(test, then, other) => {
            is_part(program, function, Role::Test, test)
                && is_stmt(program, function, inner, then)
                && match other {
                    None => true,
                    Some(stmt) => is_stmt(program, function, inner, stmt),
                }
        }
        RStmt::While(test, body) | RStmt::Do(body, test) => {
            is_part(program, function, Role::Test, test)
                && is_stmt(program, function, IN_LOOP, body)
        }
        RStmt::For(first, test, third, body) => {
            is_for_head(program, function, first, test, third)
                && is_stmt(program, function, IN_LOOP, body)
        }
        RStmt::Switch(value, stmts) => {
            let lines = in_switch(targets, switch_kind(value));
            is_switch(program, function, value, stmts) && are_stmts(program, function, lines, stmts)
        }
        RStmt::Case(value) => is_case(targets.of_case, *value),
        RStmt::Default => targets.of_case.is_some(),
        RStmt::Break => targets.of_break,
        RStmt::Continue => targets.of_continue,
        RStmt::Goto(name, part) => is_jump(part) && has_label(function, name),
        RStmt::Mark(_, stmt) => is_stmt(program, function, inner, stmt),
    }
}

/// Whether each of the statements is valid.
#[cycle(stmts)]
pub(crate) fn are_stmts(
    program: Definitions<'_>,
    function: &Function,
    targets: Targets,
    stmts: &[RStmt],
) -> bool
    ensures { IsTrue result ↔ All (λ s. IsStmt (tree_of program.entry) (function_tree function.now) targets (stmt_tree s)) stmts.now }
{
    for stmt in stmts {
        if !is_stmt(program, function, targets, stmt) {
            return false;
        }
    }
    true
}

/// Whether a list of statements has at most 1,048,576.
pub(crate) fn has_few_stmts(stmts: &[RStmt]) -> bool
    ensures { IsTrue result ↔ (stmt_count (stmts_of (map stmt_tree stmts.now)) ≤ most_entries) }
{
    stmts.len() <= MOST_ENTRIES
}

/// Whether the expression of a `switch` is valid, and its lines are cases that differ.
fn is_switch(program: Definitions<'_>, function: &Function, value: &RPart, stmts: &[RStmt]) -> bool
    ensures { IsTrue result ↔ IsSwitch (tree_of program.entry) (function_tree function.now) (part_tree value.now) (stmts_of (map stmt_tree stmts.now)) }
{
    is_part(program, function, Role::Switch, value) && are_cases(stmts)
}

/// Whether the parts of a `for` before its body are valid.
fn is_for_head(
    program: Definitions<'_>,
    function: &Function,
    first: &[RPart],
    test: &RPart,
    third: &[RPart],
) -> bool
    ensures { IsTrue result ↔ IsForHead (tree_of program.entry) (function_tree function.now) (map part_tree first.now) (part_tree test.now) (map part_tree third.now) }
{
    are_parts(program, function, Role::Effect, first)
        && is_part(program, function, Role::Test, test)
        && are_steps(program, function, third)
}

/// Whether there is at most one part, which is valid as an expression that is evaluated for its effects, and declares
/// nothing.
fn are_steps(program: Definitions<'_>, function: &Function, parts: &[RPart]) -> bool
    ensures { IsTrue result ↔ (IsOneStep (map part_tree parts.now) × All (λ p. IsPart (tree_of program.entry) (function_tree function.now) Effect p) (map part_tree parts.now)) }
{
    is_one_step(parts) && are_effects(program, function, parts)
}

/// Whether there is at most one part, and it declares nothing.
fn is_one_step(parts: &[RPart]) -> bool
    ensures { IsTrue result ↔ IsOneStep (map part_tree parts.now) }
{
    parts.len() <= 1 && declare_nothing(parts)
}

/// Whether none of the parts is an initialised declaration.
fn declare_nothing(parts: &[RPart]) -> bool
    ensures { IsTrue result ↔ All (λ p. declares (part_tree p) ≡ false) parts.now }
{
    for part in parts {
        if declares(part) {
            return false;
        }
    }
    true
}

/// Whether a part is a declared object with its initialiser.
fn declares(part: &RPart) -> bool
    ensures { result ≡ declares (part_tree part.now) }
{
    is_declared(&part.main)
}

/// Whether a part's own point initialises a declared object.
fn is_declared(main: &Option<Label>) -> bool
    ensures { result ≡ declared_own (option_map label_tree main.now) }
{
    match main {
        Some(Label::Init(_, _, _)) => true,
        _ => false,
    }
}

/// Whether each of the parts is valid as an expression that is evaluated for its effects.
fn are_effects(program: Definitions<'_>, function: &Function, parts: &[RPart]) -> bool
    ensures { IsTrue result ↔ All (λ p. IsPart (tree_of program.entry) (function_tree function.now) Effect p) (map part_tree parts.now) }
{
    are_each(program, function, Role::Effect, parts)
}

/// Whether the parts of a statement, or the first of a `for`, are valid in a role.
fn are_parts(program: Definitions<'_>, function: &Function, role: Role, parts: &[RPart]) -> bool
    ensures { IsTrue result ↔ AreParts (tree_of program.entry) (function_tree function.now) role (map part_tree parts.now) }
{
    are_together(parts) && are_each(program, function, role, parts)
}

/// Whether there are at most 1,048,576 parts, and they are at most one, or each declares an object.
fn are_together(parts: &[RPart]) -> bool
    ensures { IsTrue result ↔ AreTogether (map part_tree parts.now) }
{
    parts.len() <= MOST_ENTRIES && (parts.len() <= 1 || all_declare(parts))
}

/// Whether each of the parts is an initialised declaration.
fn all_declare(parts: &[RPart]) -> bool
    ensures { IsTrue result ↔ All (λ p. declares (part_tree p) ≡ true) parts.now }
{
    for part in parts {
        if !declares(part) {
            return false;
        }
    }
    true
}

/// Whether each of the parts is valid in a role.
fn are_each(program: Definitions<'_>, function: &Function, role: Role, parts: &[RPart]) -> bool
    ensures { IsTrue result ↔ All (λ p. IsPart (tree_of program.entry) (function_tree function.now) role (part_tree p)) parts.now }
{
    for part in parts {
        if !is_part(program, function, role, part) {
            return false;
        }
    }
    true
}

/// Whether a part has calls that fit, and then what may stand last.
fn is_part(program: Definitions<'_>, function: &Function, role: Role, part: &RPart) -> bool
    ensures { IsTrue result ↔ IsPart (tree_of program.entry) (function_tree function.now) role (part_tree part.now) }
{
    are_calls(program, function, part) && is_end(program, function, role, part)
}

/// Whether the own point of a part may stand behind its calls, or may be missing there.
fn is_end(program: Definitions<'_>, function: &Function, role: Role, part: &RPart) -> bool
    ensures { IsTrue result ↔ IsEnd (tree_of program.entry) (function_tree function.now) (scope_of (tree_of program.entry) (function_tree function.now) (part_tree part.now)) role (length part.now.calls.items) (option_map label_tree part.now.main) }
{
    let calls = part.calls.len();
    match &part.main {
        Some(label) => {
            let number = calls + 1;
            let site = Site {
                program,
                function,
                part,
                number,
            };
            is_last(role, site, label)
        }
        None => match role {
            Role::Whole | Role::Effect => calls > 0,
            Role::Test | Role::Switch => false,
        },
    }
}

/// Whether a label may stand last in a part.
fn is_last(role: Role, site: Site<'_>, label: &Label) -> bool
    ensures { IsTrue result ↔ IsLast (tree_of site.entry.program) (function_tree site.entry.function.now) (scope_at site.entry) role site.entry.number (label_tree label.now) }
{
    match role {
        Role::Whole => match label {
            Label::Call(call) => is_call(site, call),
            Label::Eval(expr) => is_expr(site, expr),
            Label::Init(owner, ctype, init) => is_initialised(site, owner, ctype, init),
            Label::Return(answer) => is_answer(site, answer),
            Label::Halt(expr) => is_expr(site, expr),
            Label::Entry | Label::Exit(_) | Label::Branch(_) => false,
            Label::Switch(_) | Label::Goto => false,
        },
        Role::Test => match label {
            Label::Branch(expr) => is_expr(site, expr),
            _ => false,
        },
        Role::Switch => match label {
            Label::Switch(expr) => is_expr(site, expr),
            _ => false,
        },
        Role::Effect => match label {
            Label::Call(call) => is_call(site, call),
            Label::Eval(expr) => is_expr(site, expr),
            Label::Init(owner, ctype, init) => is_initialised(site, owner, ctype, init),
            _ => false,
        },
    }
}

/// Whether an initialiser is valid, and its object one of the function's locals.
fn is_initialised(site: Site<'_>, owner: &Owner, ctype: &CType, init: &RInit) -> bool
    ensures { IsTrue result ↔ IsInitialised (function_tree site.entry.function.now) (scope_at site.entry) site.entry.number (owner_tree owner.now) (type_tree ctype.now) (init_tree init.now) }
{
    is_local(site.function, owner, ctype) && is_init(site, init, Some(ctype))
}

/// Whether a return fits its function's result type.
fn is_answer(site: Site<'_>, answer: &Option<Answer>) -> bool
    ensures { IsTrue result ↔ IsAnswer (scope_at site.entry) site.entry.number site.entry.function.now.result (option_map answer_tree answer.now) }
{
    match (site.function.result, answer) {
        (None, None) => true,
        (Some(kind), Some(answer)) => answer.kind == kind && is_expr(site, &answer.value),
        _ => false,
    }
}
