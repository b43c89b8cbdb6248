//! Calls of `printf` with too many values.
//!
//! Each `wide_` function gives the first count of values above 8 in what it is passed, in the order of the text. A part is
//! looked at only where those before it have none.
ghost use Rattle.std.specs.Prelude.{◌≡◌, ◌++◌, bytes_eq, codes, map, option_map};
ghost use Rattle.csub_tree.specs.Expressions.{expr_tree, exprs_of, kind_tree};
ghost use Rattle.csub_tree.specs.Declarations.{declarator_tree, init_tree, inits_of};
ghost use Rattle.csub_tree.specs.Statements.{line_tree, perhaps_of, stmt_tree, stmts_of};
ghost use Rattle.csub_tree.specs.Units.{item_tree};
ghost use Rattle.csub_validity.specs.Valid.{most_values};
ghost use Rattle.csub_limits.specs.Limits.{first_above};
ghost use Rattle.csub_limits.specs.Prints.{init_prints, inits_prints, item_prints, items_prints, line_prints, lines_prints, perhaps_prints, printed, prints, prints_all, prints_in, prints_perhaps, stmt_prints, var_prints, vars_prints};

use csub_tree::{Declarator, Expr, ExprKind, Init, Item, Name, Stmt, StmtKind};

/// The most values that a `printf` may write.
const MOST_VALUES: usize = 8;

/// The first count of values of a `printf` in these items that is above 8.
pub(crate) fn wide_in_items(items: &[Item]) -> Option<usize>
    ensures { result ≡ first_above most_values (items_prints (map item_tree items.now)) }
{
    for item in items {
        if let Some(values) = wide_in_item(item) {
            return Some(values);
        }
    }
    None
}

fn wide_in_item(item: &Item) -> Option<usize>
    ensures { result ≡ first_above most_values (item_prints (item_tree item.now)) }
{
    match item {
        Item::Struct(_, _) | Item::Enum(_, _) | Item::Object(_) | Item::Prototype(_) => None,
        Item::Function(_, body, _) => wide_in_lines(body),
    }
}

#[cycle(statement)]
fn wide_in_lines(lines: &[Stmt]) -> Option<usize>
    ensures { result ≡ first_above most_values (lines_prints (stmts_of (map stmt_tree lines.now))) }
{
    for line in lines {
        if let Some(values) = wide_in_stmt(line) {
            return Some(values);
        }
    }
    None
}

#[cycle(statement)]
fn wide_in_stmt(stmt: &Stmt) -> Option<usize>
    ensures { result ≡ first_above most_values (stmt_prints (stmt_tree stmt.now)) }
{
    wide_in_line(&stmt.kind)
}

#[cycle(statement)]
fn wide_in_line(kind: &StmtKind) -> Option<usize>
    ensures { result ≡ first_above most_values (line_prints (line_tree kind.now)) }
{
    match kind {
        StmtKind::Declare(declare) => wide_in_vars(&declare.vars),
        StmtKind::Eval(e) | StmtKind::Case(e) => wide_in_expr(e),
        StmtKind::Return(e) => wide_if_there(e),
        StmtKind::Empty | StmtKind::Default | StmtKind::Break => None,
        StmtKind::Continue | StmtKind::Goto(_) => None,
        StmtKind::Label(_, inner) => wide_in_stmt(inner),
        StmtKind::Block(lines) => wide_in_lines(lines),
        StmtKind::Switch(value, lines) => match wide_in_expr(value) {
            Some(values) => Some(values),
            None => wide_in_lines(lines),
        },
        StmtKind::If(test, then, other) => match wide_in_expr(test) {
            Some(values) => Some(values),
            None => match wide_in_stmt(then) {
                Some(values) => Some(values),
                None => wide_in_perhaps(other),
            },
        },
        StmtKind::While(test, body) => match wide_in_expr(test) {
            Some(values) => Some(values),
            None => wide_in_stmt(body),
        },
        StmtKind::Do(body, test) => match wide_in_stmt(body) {
            Some(values) => Some(values),
            None => wide_in_expr(test),
        },
        StmtKind::For(first, test, third, body) => match wide_in_perhaps(first) {
            Some(values) => Some(values),
            None => match wide_in_head(test, third) {
                Some(values) => Some(values),
                None => wide_in_stmt(body),
            },
        },
    }
}

#[cycle(statement)]
fn wide_in_perhaps(stmt: &Option<Box<Stmt>>) -> Option<usize>
    ensures { result ≡ first_above most_values (perhaps_prints (perhaps_of (option_map (λ s. stmt_tree s.value) stmt.now))) }
{
    wide_in_stmt(stmt.as_ref()?)
}

/// In the condition of a `for` and in its third part.
fn wide_in_head(test: &Option<Expr>, third: &Option<Expr>) -> Option<usize>
    ensures { result ≡ first_above most_values (prints_perhaps (option_map expr_tree test.now) ++ prints_perhaps (option_map expr_tree third.now)) }
{
    match wide_if_there(test) {
        Some(values) => Some(values),
        None => wide_if_there(third),
    }
}

fn wide_in_vars(vars: &[Declarator]) -> Option<usize>
    ensures { result ≡ first_above most_values (vars_prints (map declarator_tree vars.now)) }
{
    for var in vars {
        if let Some(values) = wide_in_var(var) {
            return Some(values);
        }
    }
    None
}

fn wide_in_var(var: &Declarator) -> Option<usize>
    ensures { result ≡ first_above most_values (var_prints (option_map init_tree var.now.init)) }
{
    wide_in_init(var.init.as_ref()?)
}

#[cycle(initialiser)]
fn wide_in_init(init: &Init) -> Option<usize>
    ensures { result ≡ first_above most_values (init_prints (init_tree init.now)) }
{
    match init {
        Init::One(e) => wide_in_expr(e),
        Init::List(inits, _) => wide_in_inits(inits),
    }
}

#[cycle(initialiser)]
fn wide_in_inits(inits: &[Init]) -> Option<usize>
    ensures { result ≡ first_above most_values (inits_prints (inits_of (map init_tree inits.now))) }
{
    for init in inits {
        if let Some(values) = wide_in_init(init) {
            return Some(values);
        }
    }
    None
}

fn wide_if_there(e: &Option<Expr>) -> Option<usize>
    ensures { result ≡ first_above most_values (prints_perhaps (option_map expr_tree e.now)) }
{
    wide_in_expr(e.as_ref()?)
}

#[cycle(expression)]
fn wide_in_expr(e: &Expr) -> Option<usize>
    ensures { result ≡ first_above most_values (prints (expr_tree e.now)) }
{
    wide_in_kind(&e.kind)
}

#[cycle(expression)]
fn wide_in_kind(kind: &ExprKind) -> Option<usize>
    ensures { result ≡ first_above most_values (prints_in (kind_tree kind.now)) }
{
    match kind {
        ExprKind::Number(_, _) | ExprKind::Char(_) | ExprKind::Text(_) | ExprKind::Name(_) => None,
        ExprKind::Paren(a) | ExprKind::Unary(_, a) | ExprKind::Cast(_, a) => wide_in_expr(a),
        ExprKind::Step(_, a) | ExprKind::Member(a, _) => wide_in_expr(a),
        ExprKind::Binary(_, a, b)
        | ExprKind::And(a, b)
        | ExprKind::Or(a, b)
        | ExprKind::Assign(_, a, b)
        | ExprKind::Index(a, b) => match wide_in_expr(a) {
            Some(values) => Some(values),
            None => wide_in_expr(b),
        },
        ExprKind::Choose(test, a, b) => match wide_in_expr(test) {
            Some(values) => Some(values),
            None => match wide_in_expr(a) {
                Some(values) => Some(values),
                None => wide_in_expr(b),
            },
        },
        ExprKind::Call(f, args) => match wide_call(f, args) {
            Some(values) => Some(values),
            None => wide_in_exprs(args),
        },
    }
}

#[cycle(expression)]
fn wide_in_exprs(exprs: &[Expr]) -> Option<usize>
    ensures { result ≡ first_above most_values (prints_all (exprs_of (map expr_tree exprs.now))) }
{
    for e in exprs {
        if let Some(values) = wide_in_expr(e) {
            return Some(values);
        }
    }
    None
}

/// How many arguments a call has behind its first, where it is of `printf` and they are more than 8. The first is the format
/// (C11 7.21.6.3p2).
fn wide_call(f: &Name, args: &[Expr]) -> Option<usize>
    ensures { result ≡ first_above most_values (printed f.now.text (exprs_of (map expr_tree args.now))) }
{
    if is_printf(f) && args.len() > MOST_VALUES + 1 {
        return Some(args.len() - 1);
    }
    None
}

fn is_printf(f: &Name) -> bool
    ensures { result ≡ bytes_eq f.now.text (codes "printf") }
{
    f.text.bytes() == b"printf".as_slice()
}
