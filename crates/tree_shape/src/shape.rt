//! Whether two units differ in nothing but their places.
ghost use Rattle.std.specs.Prelude.{◌≡◌, ◌≤◌, ◌↔◌, IsTrue, map};
ghost use Rattle.std.specs.Option.{option_map};
ghost use Rattle.csub_tree.specs.Expressions.{expr_tree, kind_tree};
ghost use Rattle.csub_tree.specs.Declarations.{init_tree, declarator_tree, declare_tree, param_tree, head_tree};
ghost use Rattle.csub_tree.specs.Statements.{stmt_tree, line_tree};
ghost use Rattle.csub_tree.specs.Units.{constant_tree, item_tree, unit_tree};
ghost use Rattle.csub_tree.specs.Depth.{unit_depth};
ghost use Rattle.tree_shape.specs.Shape.{name_shape, type_shape, expr_shape, kind_shape, init_shape, declarator_shape, declare_shape, param_shape, head_shape, stmt_shape, line_shape, constant_shape, item_shape, SameShape};

use csub_tree::{
    Constant, Declarator, Declare, Expr, ExprKind, Head, Init, Item, Name, Param, Stmt, StmtKind,
    TypeName, Unit,
};

/// Whether two units are equal but for the places of their parts.
pub fn same_shape(a: &Unit, b: &Unit) -> bool
    requires left { unit_depth (unit_tree a.now) ≤ 256 }
    requires right { unit_depth (unit_tree b.now) ≤ 256 }
    ensures { IsTrue result ↔ SameShape (unit_tree a.now) (unit_tree b.now) }
{
    same_items(&a.items, &b.items)
}

fn same_items(a: &[Item], b: &[Item]) -> bool
    ensures { IsTrue result ↔ (map item_shape (map item_tree a.now) ≡ map item_shape (map item_tree b.now)) }
{
    if a.len() != b.len() {
        return false;
    }
    for i in 0..a.len() {
        if !same_item(&a[i], &b[i]) {
            return false;
        }
    }
    true
}

fn same_item(a: &Item, b: &Item) -> bool
    ensures { IsTrue result ↔ (item_shape (item_tree a.now) ≡ item_shape (item_tree b.now)) }
{
    match (a, b) {
        (Item::Struct(a0, a1), Item::Struct(b0, b1)) => same_name(a0, b0) && same_declares(a1, b1),
        (Item::Enum(a0, a1), Item::Enum(b0, b1)) => same_names(a0, b0) && same_constants(a1, b1),
        (Item::Object(a0), Item::Object(b0)) => same_declare(a0, b0),
        (Item::Prototype(a0), Item::Prototype(b0)) => same_head(a0, b0),
        (Item::Function(a0, a1, _), Item::Function(b0, b1, _)) => same_head(a0, b0)
            && same_stmts(a1, b1),
        _ => false,
    }
}

fn same_constants(a: &[Constant], b: &[Constant]) -> bool
    ensures { IsTrue result ↔ (map constant_shape (map constant_tree a.now) ≡ map constant_shape (map constant_tree b.now)) }
{
    if a.len() != b.len() {
        return false;
    }
    for i in 0..a.len() {
        if !same_constant(&a[i], &b[i]) {
            return false;
        }
    }
    true
}

fn same_constant(a: &Constant, b: &Constant) -> bool
    ensures { IsTrue result ↔ (constant_shape (constant_tree a.now) ≡ constant_shape (constant_tree b.now)) }
{
    same_name(&a.name, &b.name) && same_option(&a.value, &b.value)
}

fn same_head(a: &Head, b: &Head) -> bool
    ensures { IsTrue result ↔ (head_shape (head_tree a.now) ≡ head_shape (head_tree b.now)) }
{
    same_type(&a.result, &b.result)
        && same_name(&a.name, &b.name)
        && same_params(&a.params, &b.params)
}

fn same_params(a: &[Param], b: &[Param]) -> bool
    ensures { IsTrue result ↔ (map param_shape (map param_tree a.now) ≡ map param_shape (map param_tree b.now)) }
{
    if a.len() != b.len() {
        return false;
    }
    for i in 0..a.len() {
        if !same_param(&a[i], &b[i]) {
            return false;
        }
    }
    true
}

fn same_param(a: &Param, b: &Param) -> bool
    ensures { IsTrue result ↔ (param_shape (param_tree a.now) ≡ param_shape (param_tree b.now)) }
{
    same_type(&a.base, &b.base)
        && same_names(&a.name, &b.name)
        && a.array == b.array
        && same_option(&a.length, &b.length)
}

fn same_declares(a: &[Declare], b: &[Declare]) -> bool
    ensures { IsTrue result ↔ (map declare_shape (map declare_tree a.now) ≡ map declare_shape (map declare_tree b.now)) }
{
    if a.len() != b.len() {
        return false;
    }
    for i in 0..a.len() {
        if !same_declare(&a[i], &b[i]) {
            return false;
        }
    }
    true
}

fn same_declare(a: &Declare, b: &Declare) -> bool
    ensures { IsTrue result ↔ (declare_shape (declare_tree a.now) ≡ declare_shape (declare_tree b.now)) }
{
    same_type(&a.base, &b.base) && same_declarators(&a.vars, &b.vars)
}

fn same_declarators(a: &[Declarator], b: &[Declarator]) -> bool
    ensures { IsTrue result ↔ (map declarator_shape (map declarator_tree a.now) ≡ map declarator_shape (map declarator_tree b.now)) }
{
    if a.len() != b.len() {
        return false;
    }
    for i in 0..a.len() {
        if !same_declarator(&a[i], &b[i]) {
            return false;
        }
    }
    true
}

fn same_declarator(a: &Declarator, b: &Declarator) -> bool
    ensures { IsTrue result ↔ (declarator_shape (declarator_tree a.now) ≡ declarator_shape (declarator_tree b.now)) }
{
    same_name(&a.name, &b.name)
        && same_exprs(&a.dims, &b.dims)
        && same_init_option(&a.init, &b.init)
}

fn same_init_option(a: &Option<Init>, b: &Option<Init>) -> bool
    ensures { IsTrue result ↔ (option_map init_shape (option_map init_tree a.now) ≡ option_map init_shape (option_map init_tree b.now)) }
{
    match (a, b) {
        (None, None) => true,
        (Some(one), Some(other)) => same_init(one, other),
        _ => false,
    }
}

#[cycle(same_init)]
fn same_init(a: &Init, b: &Init) -> bool
    ensures { IsTrue result ↔ (init_shape (init_tree a.now) ≡ init_shape (init_tree b.now)) }
{
    match (a, b) {
        (Init::One(a0), Init::One(b0)) => same_expr(a0, b0),
        (Init::List(a0, _), Init::List(b0, _)) => same_inits(a0, b0),
        _ => false,
    }
}

#[cycle(same_init)]
fn same_inits(a: &[Init], b: &[Init]) -> bool
    ensures { IsTrue result ↔ (map init_shape (map init_tree a.now) ≡ map init_shape (map init_tree b.now)) }
{
    if a.len() != b.len() {
        return false;
    }
    for i in 0..a.len() {
        if !same_init(&a[i], &b[i]) {
            return false;
        }
    }
    true
}

#[cycle(same_stmt)]
fn same_stmt(a: &Stmt, b: &Stmt) -> bool
    ensures { IsTrue result ↔ (stmt_shape (stmt_tree a.now) ≡ stmt_shape (stmt_tree b.now)) }
{
    same_line(&a.kind, &b.kind)
}

#[cycle(same_stmt)]
fn same_line(a: &StmtKind, b: &StmtKind) -> bool
    ensures { IsTrue result ↔ (line_shape (line_tree a.now) ≡ line_shape (line_tree b.now)) }
{
    match (a, b) {
        (StmtKind::Declare(a0), StmtKind::Declare(b0)) => same_declare(a0, b0),
        (StmtKind::Eval(a0), StmtKind::Eval(b0)) => same_expr(a0, b0),
        (StmtKind::Empty, StmtKind::Empty) => true,
        (StmtKind::Block(a0), StmtKind::Block(b0)) => same_stmts(a0, b0),
        (StmtKind::If(a0, a1, None), StmtKind::If(b0, b1, None)) => same_expr(a0, b0)
            && same_stmt(a1, b1),
        (StmtKind::If(a0, a1, Some(a2)), StmtKind::If(b0, b1, Some(b2))) => {
            same_expr(a0, b0) && same_stmt(a1, b1) && same_stmt(a2, b2)
        }
        (StmtKind::While(a0, a1), StmtKind::While(b0, b1)) => same_expr(a0, b0)
            && same_stmt(a1, b1),
        (StmtKind::Do(a0, a1), StmtKind::Do(b0, b1)) => same_stmt(a0, b0) && same_expr(a1, b1),
        (StmtKind::For(None, a1, a2, a3), StmtKind::For(None, b1, b2, b3)) => {
            same_option(a1, b1) && same_option(a2, b2) && same_stmt(a3, b3)
        }
        (StmtKind::For(Some(a0), a1, a2, a3), StmtKind::For(Some(b0), b1, b2, b3)) => {
            same_stmt(a0, b0) && same_option(a1, b1) && same_option(a2, b2) && same_stmt(a3, b3)
        }
        (StmtKind::Switch(a0, a1), StmtKind::Switch(b0, b1)) => {
            same_expr(a0, b0) && same_stmts(a1, b1)
        }
        (StmtKind::Case(a0), StmtKind::Case(b0)) => same_expr(a0, b0),
        (StmtKind::Default, StmtKind::Default) => true,
        (StmtKind::Break, StmtKind::Break) => true,
        (StmtKind::Continue, StmtKind::Continue) => true,
        (StmtKind::Goto(a0), StmtKind::Goto(b0)) => same_name(a0, b0),
        (StmtKind::Label(a0, a1), StmtKind::Label(b0, b1)) => same_name(a0, b0)
            && same_stmt(a1, b1),
        (StmtKind::Return(a0), StmtKind::Return(b0)) => same_option(a0, b0),
        _ => false,
    }
}

#[cycle(same_stmt)]
fn same_stmts(a: &[Stmt], b: &[Stmt]) -> bool
    ensures { IsTrue result ↔ (map stmt_shape (map stmt_tree a.now) ≡ map stmt_shape (map stmt_tree b.now)) }
{
    if a.len() != b.len() {
        return false;
    }
    for i in 0..a.len() {
        if !same_stmt(&a[i], &b[i]) {
            return false;
        }
    }
    true
}

fn same_option(a: &Option<Expr>, b: &Option<Expr>) -> bool
    ensures { IsTrue result ↔ (option_map expr_shape (option_map expr_tree a.now) ≡ option_map expr_shape (option_map expr_tree b.now)) }
{
    match (a, b) {
        (None, None) => true,
        (Some(one), Some(other)) => same_expr(one, other),
        _ => false,
    }
}

#[cycle(same_expr)]
fn same_expr(a: &Expr, b: &Expr) -> bool
    ensures { IsTrue result ↔ (expr_shape (expr_tree a.now) ≡ expr_shape (expr_tree b.now)) }
{
    same_kind(&a.kind, &b.kind)
}

#[cycle(same_expr)]
fn same_kind(a: &ExprKind, b: &ExprKind) -> bool
    ensures { IsTrue result ↔ (kind_shape (kind_tree a.now) ≡ kind_shape (kind_tree b.now)) }
{
    match (a, b) {
        (ExprKind::Number(a0, a1), ExprKind::Number(b0, b1)) => a0 == b0 && a1 == b1,
        (ExprKind::Char(a0), ExprKind::Char(b0)) => a0 == b0,
        (ExprKind::Text(a0), ExprKind::Text(b0)) => a0.bytes() == b0.bytes(),
        (ExprKind::Name(a0), ExprKind::Name(b0)) => same_name(a0, b0),
        (ExprKind::Paren(a0), ExprKind::Paren(b0)) => same_expr(a0, b0),
        (ExprKind::Unary(a0, a1), ExprKind::Unary(b0, b1)) => a0 == b0 && same_expr(a1, b1),
        (ExprKind::Cast(a0, a1), ExprKind::Cast(b0, b1)) => same_type(a0, b0) && same_expr(a1, b1),
        (ExprKind::Step(a0, a1), ExprKind::Step(b0, b1)) => a0 == b0 && same_expr(a1, b1),
        (ExprKind::Binary(a0, a1, a2), ExprKind::Binary(b0, b1, b2)) => a0 == b0
            && same_expr(a1, b1)
            && same_expr(a2, b2),
        (ExprKind::And(a0, a1), ExprKind::And(b0, b1)) => same_expr(a0, b0) && same_expr(a1, b1),
        (ExprKind::Or(a0, a1), ExprKind::Or(b0, b1)) => same_expr(a0, b0) && same_expr(a1, b1),
        (ExprKind::Choose(a0, a1, a2), ExprKind::Choose(b0, b1, b2)) => same_expr(a0, b0)
            && same_expr(a1, b1)
            && same_expr(a2, b2),
        (ExprKind::Assign(a0, a1, a2), ExprKind::Assign(b0, b1, b2)) => a0 == b0
            && same_expr(a1, b1)
            && same_expr(a2, b2),
        (ExprKind::Call(a0, a1), ExprKind::Call(b0, b1)) => same_name(a0, b0) && same_exprs(a1, b1),
        (ExprKind::Index(a0, a1), ExprKind::Index(b0, b1)) => same_expr(a0, b0)
            && same_expr(a1, b1),
        (ExprKind::Member(a0, a1), ExprKind::Member(b0, b1)) => same_expr(a0, b0)
            && same_name(a1, b1),
        _ => false,
    }
}

#[cycle(same_expr)]
fn same_exprs(a: &[Expr], b: &[Expr]) -> bool
    ensures { IsTrue result ↔ (map expr_shape (map expr_tree a.now) ≡ map expr_shape (map expr_tree b.now)) }
{
    if a.len() != b.len() {
        return false;
    }
    for i in 0..a.len() {
        if !same_expr(&a[i], &b[i]) {
            return false;
        }
    }
    true
}

fn same_names(a: &Option<Name>, b: &Option<Name>) -> bool
    ensures { IsTrue result ↔ (option_map name_shape a.now ≡ option_map name_shape b.now) }
{
    match (a, b) {
        (None, None) => true,
        (Some(one), Some(other)) => same_name(one, other),
        _ => false,
    }
}

fn same_type(a: &TypeName, b: &TypeName) -> bool
    ensures { IsTrue result ↔ (type_shape a.now ≡ type_shape b.now) }
{
    match (a, b) {
        (TypeName::Void, TypeName::Void) => true,
        (TypeName::Char, TypeName::Char) => true,
        (TypeName::Int, TypeName::Int) => true,
        (TypeName::Unsigned, TypeName::Unsigned) => true,
        (TypeName::Struct(a0), TypeName::Struct(b0)) => same_name(a0, b0),
        _ => false,
    }
}

fn same_name(a: &Name, b: &Name) -> bool
    ensures { IsTrue result ↔ (name_shape a.now ≡ name_shape b.now) }
{
    a.text.bytes() == b.text.bytes()
}
