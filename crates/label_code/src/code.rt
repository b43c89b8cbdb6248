//! The codes of bare labels and of globals, number by number, as `specs/Codes` gives them: a tree begins with the number of
//! its form there, a text and a list with their length, and what may be missing with 0 or 1. In all functions an `Err` is
//! want of memory, and some of the numbers may have been appended then.
ghost use Rattle.std.specs.Prelude.{◌≡◌, ◌++◌, ◌∷◌, OnOk, map, option_map};
ghost use Rattle.csub_semantics.specs.Types.{global_tree};
ghost use Rattle.csub_semantics.specs.Trees.{constant, reading, stepping, variable, object, temporary, owner_tree, place_tree, expr_tree, formatted, exprs_of, arg_tree};
ghost use Rattle.csub_semantics.specs.Labels.{answer_tree, call_tree, init_tree, initialises, inits_of, label_tree};
ghost use Rattle.label_code.specs.Bare.{bare_answer, bare_arg, bare_call, bare_expr, bare_exprs, bare_init, bare_inits, bare_label, bare_place, no_type};
ghost use Rattle.label_code.specs.Codes.{integer_code, name_code, list_code, option_code, number_code, kind_code, kind_number, unary_number, step_number, operator_number, piece_number, piece_code, rule_number, type_code, owner_code, place_code, expr_code, exprs_code, arg_code, answer_code, call_code, init_code, inits_code, label_code, global_code, numbered, with_type};

use csub_semantics::{
    Answer, BinOp, CallLabel, EndRule, GlobalVar, IntKind, Label, Owner, Piece, Place, RArg, RExpr,
    RInit, StepOp, UnaryOp,
};
use std::alloc::AllocError;

/// Appends the code of a label without its types.
pub fn push_label(out: &mut Vec<u64>, label: &Label) -> Result<(), AllocError>
    ensures { OnOk result (out.new.items ≡ out.old.items ++ label_code (bare_label (label_tree label.now))) }
{
    match label {
        Label::Entry => Ok(out.push(0)?),
        Label::Exit(rule) => {
            out.push(1)?;
            Ok(out.push(rule_number(*rule))?)
        }
        Label::Eval(expr) => push_behind(out, 2, expr),
        Label::Branch(expr) => push_behind(out, 3, expr),
        Label::Return(answer) => {
            out.push(4)?;
            push_answer(out, answer)
        }
        Label::Call(call) => {
            out.push(5)?;
            push_call(out, call)
        }
        Label::Init(owner, _, init) => push_initialisation(out, owner, init),
        Label::Switch(expr) => push_behind(out, 7, expr),
        Label::Goto => Ok(out.push(8)?),
        Label::Halt(expr) => push_behind(out, 9, expr),
    }
}

/// Appends the code of the initialisation of an object, without its type.
fn push_initialisation(out: &mut Vec<u64>, owner: &Owner, init: &RInit) -> Result<(), AllocError>
    ensures { OnOk result (out.new.items ≡ out.old.items ++ label_code (initialises (owner_tree owner.now) no_type (bare_init (init_tree init.now)))) }
{
    out.push(6)?;
    push_owner(out, owner)?;
    push_no_type(out)?;
    push_init(out, init)
}

/// Appends the code of a global, with a number in the place of its type.
pub fn push_global(out: &mut Vec<u64>, global: &GlobalVar, number: u64) -> Result<(), AllocError>
    ensures { OnOk result (out.new.items ≡ out.old.items ++ global_code (with_type (global_tree global.now) (numbered number))) }
{
    push_name(out, global.name.bytes())?;
    push_numbered(out, number)?;
    push_integers(out, &global.initial)
}

/// Appends the code of the numbers that a global begins with.
fn push_integers(out: &mut Vec<u64>, values: &[i64]) -> Result<(), AllocError>
    ensures { OnOk result (out.new.items ≡ out.old.items ++ list_code integer_code values.now) }
{
    out.push(values.len() as u64)?;
    for value in values {
        push_integer(out, *value)?;
    }
    Ok(())
}

/// Appends the code of an initialiser.
#[cycle(initialisers)]
fn push_init(out: &mut Vec<u64>, init: &RInit) -> Result<(), AllocError>
    ensures { OnOk result (out.new.items ≡ out.old.items ++ init_code (bare_init (init_tree init.now))) }
{
    match init {
        RInit::One(value) => push_behind(out, 0, value),
        RInit::List(entries) => {
            out.push(1)?;
            push_inits(out, entries)
        }
    }
}

/// Appends the code of a list of initialisers.
#[cycle(initialisers)]
fn push_inits(out: &mut Vec<u64>, entries: &[RInit]) -> Result<(), AllocError>
    ensures { OnOk result (out.new.items ≡ out.old.items ++ inits_code (bare_inits (inits_of (map init_tree entries.now)))) }
{
    for entry in entries {
        out.push(1)?;
        push_init(out, entry)?;
    }
    Ok(out.push(0)?)
}

/// Appends the code of what a function returns.
fn push_answer(out: &mut Vec<u64>, answer: &Option<Answer>) -> Result<(), AllocError>
    ensures { OnOk result (out.new.items ≡ out.old.items ++ option_code answer_code (option_map bare_answer (option_map answer_tree answer.now))) }
{
    match answer {
        None => out.push(0)?,
        Some(answer) => {
            out.push(1)?;
            out.push(kind_number(answer.kind))?;
            push_expr(out, &answer.value)?;
        }
    }
    Ok(())
}

/// Appends the code of a call, whose parameters have no types here: an empty list.
fn push_call(out: &mut Vec<u64>, call: &CallLabel) -> Result<(), AllocError>
    ensures { OnOk result (out.new.items ≡ out.old.items ++ call_code (bare_call (call_tree call.now))) }
{
    push_name(out, call.callee.bytes())?;
    out.push(0)?;
    push_result(out, call.result)?;
    push_args(out, &call.args)?;
    push_temp(out, call.temp)
}

/// Appends the code of the kind that a call gives, or of none.
fn push_result(out: &mut Vec<u64>, result_kind: Option<IntKind>) -> Result<(), AllocError>
    ensures { OnOk result (out.new.items ≡ out.old.items ++ option_code kind_code result_kind) }
{
    match result_kind {
        None => out.push(0)?,
        Some(kind) => {
            out.push(1)?;
            out.push(kind_number(kind))?;
        }
    }
    Ok(())
}

/// Appends the code of the temporary that keeps what a call gives, or of none.
fn push_temp(out: &mut Vec<u64>, temp: Option<u32>) -> Result<(), AllocError>
    ensures { OnOk result (out.new.items ≡ out.old.items ++ option_code number_code temp) }
{
    match temp {
        None => out.push(0)?,
        Some(number) => {
            out.push(1)?;
            out.push(u64::from(number))?;
        }
    }
    Ok(())
}

/// Appends the code that stands in the place of a type: that of `char`.
fn push_no_type(out: &mut Vec<u64>) -> Result<(), AllocError>
    ensures { OnOk result (out.new.items ≡ out.old.items ++ type_code no_type) }
{
    out.push(0)?;
    Ok(out.push(0)?)
}

/// Appends the code of a number in the place of a type or of a struct in one: that of a struct without members, whose tag
/// has this number as its one letter.
pub fn push_numbered(out: &mut Vec<u64>, number: u64) -> Result<(), AllocError>
    ensures { OnOk result (out.new.items ≡ out.old.items ++ type_code (numbered number)) }
{
    out.push(2)?;
    out.push(1)?;
    out.push(number)?;
    Ok(out.push(0)?)
}

/// Appends the code of the arguments of a call.
fn push_args(out: &mut Vec<u64>, args: &[RArg]) -> Result<(), AllocError>
    ensures { OnOk result (out.new.items ≡ out.old.items ++ list_code arg_code (map bare_arg (map arg_tree args.now))) }
{
    out.push(args.len() as u64)?;
    for arg in args {
        push_arg(out, arg)?;
    }
    Ok(())
}

/// Appends the code of an argument.
fn push_arg(out: &mut Vec<u64>, arg: &RArg) -> Result<(), AllocError>
    ensures { OnOk result (out.new.items ≡ out.old.items ++ arg_code (bare_arg (arg_tree arg.now))) }
{
    match arg {
        RArg::Value(expr) => push_behind(out, 0, expr),
        RArg::Array(place) => push_place_behind(out, 1, place),
    }
}

/// Appends the code of an expression.
#[cycle(expressions)]
fn push_expr(out: &mut Vec<u64>, expr: &RExpr) -> Result<(), AllocError>
    ensures { OnOk result (out.new.items ≡ out.old.items ++ expr_code (bare_expr (expr_tree expr.now))) }
{
    match expr {
        RExpr::Const(kind, value) => push_constant(out, *kind, *value),
        RExpr::Read(place) => push_place_behind(out, 1, place),
        RExpr::Temp(number, kind) => push_temporary(out, *number, *kind),
        RExpr::Binary(op, kind, left, right) => {
            push_operand(out, 2, operator_number(*op), *kind, left)?;
            push_expr(out, right)
        }
        RExpr::Getchar => Ok(out.push(3)?),
        RExpr::Putchar(byte) => push_behind(out, 4, byte),
        RExpr::Printf(pieces, values) => push_printf(out, pieces, values),
        RExpr::Unary(op, kind, operand) => {
            push_operand(out, 5, unary_number(*op), *kind, operand)
        }
        RExpr::Cast(kind, operand) => push_converted(out, 6, *kind, operand),
        RExpr::And(left, right) => {
            push_behind(out, 7, left)?;
            push_expr(out, right)
        }
        RExpr::Or(left, right) => {
            push_behind(out, 8, left)?;
            push_expr(out, right)
        }
        RExpr::Choose(kind, test, left, right) => {
            push_converted(out, 9, *kind, test)?;
            push_expr(out, left)?;
            push_expr(out, right)
        }
        RExpr::Step(op, place) => push_step(out, *op, place),
        RExpr::Assign(place, value) => {
            push_place_behind(out, 11, place)?;
            push_expr(out, value)
        }
        RExpr::Update(place, op, kind, value) => {
            out.push(12)?;
            out.push(operator_number(*op))?;
            push_place_behind(out, kind_number(*kind), place)?;
            push_expr(out, value)
        }
    }
}

/// Appends the code of a `printf`.
#[cycle(expressions)]
fn push_printf(out: &mut Vec<u64>, pieces: &[Piece], values: &[RExpr]) -> Result<(), AllocError>
    ensures { OnOk result (out.new.items ≡ out.old.items ++ expr_code (bare_expr (formatted pieces.now (exprs_of (map expr_tree values.now))))) }
{
    out.push(13)?;
    push_pieces(out, pieces)?;
    push_exprs(out, values)
}

/// Appends the code of the values of a format.
#[cycle(expressions)]
fn push_exprs(out: &mut Vec<u64>, exprs: &[RExpr]) -> Result<(), AllocError>
    ensures { OnOk result (out.new.items ≡ out.old.items ++ exprs_code (bare_exprs (exprs_of (map expr_tree exprs.now)))) }
{
    for expr in exprs {
        push_behind(out, 1, expr)?;
    }
    Ok(out.push(0)?)
}

/// Appends the code of the pieces of a format.
fn push_pieces(out: &mut Vec<u64>, pieces: &[Piece]) -> Result<(), AllocError>
    ensures { OnOk result (out.new.items ≡ out.old.items ++ list_code piece_code pieces.now) }
{
    out.push(pieces.len() as u64)?;
    for piece in pieces {
        out.push(piece_number(*piece))?;
    }
    Ok(())
}

/// Appends a number and a kind, and behind them the code of an expression.
#[cycle(expressions)]
fn push_converted(
    out: &mut Vec<u64>,
    number: u64,
    kind: IntKind,
    expr: &RExpr,
) -> Result<(), AllocError>
    ensures { OnOk result (out.new.items ≡ out.old.items ++ number ∷ kind_number kind ∷ expr_code (bare_expr (expr_tree expr.now))) }
{
    out.push(number)?;
    push_behind(out, kind_number(kind), expr)
}

/// Appends the numbers of an operation and of its operator and kind, and behind them the code of its first operand.
#[cycle(expressions)]
fn push_operand(
    out: &mut Vec<u64>,
    number: u64,
    operator: u64,
    kind: IntKind,
    expr: &RExpr,
) -> Result<(), AllocError>
    ensures { OnOk result (out.new.items ≡ out.old.items ++ number ∷ operator ∷ kind_number kind ∷ expr_code (bare_expr (expr_tree expr.now))) }
{
    out.push(number)?;
    push_converted(out, operator, kind, expr)
}

/// Appends a number, and behind it the code of a place.
#[cycle(expressions)]
fn push_place_behind(out: &mut Vec<u64>, number: u64, place: &Place) -> Result<(), AllocError>
    ensures { OnOk result (out.new.items ≡ out.old.items ++ number ∷ place_code (bare_place (place_tree place.now))) }
{
    out.push(number)?;
    push_place(out, place)
}

/// Appends a number, and behind it the code of an expression.
#[cycle(expressions)]
fn push_behind(out: &mut Vec<u64>, number: u64, expr: &RExpr) -> Result<(), AllocError>
    ensures { OnOk result (out.new.items ≡ out.old.items ++ number ∷ expr_code (bare_expr (expr_tree expr.now))) }
{
    out.push(number)?;
    push_expr(out, expr)
}

/// Appends the code of a constant.
fn push_constant(out: &mut Vec<u64>, kind: IntKind, value: i64) -> Result<(), AllocError>
    ensures { OnOk result (out.new.items ≡ out.old.items ++ expr_code (constant kind value)) }
{
    out.push(0)?;
    out.push(kind_number(kind))?;
    push_integer(out, value)
}

/// Appends the code of the reading of a temporary: of a reading, of a place that is a variable, and of a temporary.
fn push_temporary(out: &mut Vec<u64>, number: u32, kind: IntKind) -> Result<(), AllocError>
    ensures { OnOk result (out.new.items ≡ out.old.items ++ expr_code (reading (variable (temporary number kind)))) }
{
    out.push(1)?;
    out.push(0)?;
    out.push(1)?;
    out.push(u64::from(number))?;
    Ok(out.push(kind_number(kind))?)
}

/// Appends the code of `++` or `--` at a place.
#[cycle(expressions)]
fn push_step(out: &mut Vec<u64>, op: StepOp, place: &Place) -> Result<(), AllocError>
    ensures { OnOk result (out.new.items ≡ out.old.items ++ expr_code (stepping op (bare_place (place_tree place.now)))) }
{
    out.push(10)?;
    out.push(step_number(op))?;
    push_place(out, place)
}

/// Appends the code of a place.
#[cycle(expressions)]
fn push_place(out: &mut Vec<u64>, place: &Place) -> Result<(), AllocError>
    ensures { OnOk result (out.new.items ≡ out.old.items ++ place_code (bare_place (place_tree place.now))) }
{
    match place {
        Place::Var(owner, _) => push_object(out, owner),
        Place::Index(array, index) => {
            out.push(1)?;
            push_place(out, array)?;
            push_expr(out, index)
        }
        Place::Member(whole, name) => {
            out.push(2)?;
            push_name(out, name.bytes())?;
            push_place(out, whole)
        }
    }
}

/// Appends the code of the place of an object: of a place that is a variable, and of an object.
fn push_object(out: &mut Vec<u64>, owner: &Owner) -> Result<(), AllocError>
    ensures { OnOk result (out.new.items ≡ out.old.items ++ place_code (variable (object (owner_tree owner.now) no_type))) }
{
    out.push(0)?;
    out.push(0)?;
    push_owner(out, owner)?;
    push_no_type(out)
}

/// Appends the code of the name of an object, and of its number where it is one of a function.
fn push_owner(out: &mut Vec<u64>, owner: &Owner) -> Result<(), AllocError>
    ensures { OnOk result (out.new.items ≡ out.old.items ++ owner_code (owner_tree owner.now)) }
{
    match owner {
        Owner::Global(name) => {
            out.push(0)?;
            push_name(out, name.bytes())
        }
        Owner::Local(name, number) => {
            out.push(1)?;
            out.push(u64::from(*number))?;
            push_name(out, name.bytes())
        }
    }
}

/// Appends the code of a name.
pub fn push_name(out: &mut Vec<u64>, name: &[u8]) -> Result<(), AllocError>
    ensures { OnOk result (out.new.items ≡ out.old.items ++ name_code name.now) }
{
    out.push(name.len() as u64)?;
    for byte in name {
        out.push(u64::from(*byte))?;
    }
    Ok(())
}

/// Appends the code of a number: its sign, and how far it is from 0 or from -1.
fn push_integer(out: &mut Vec<u64>, value: i64) -> Result<(), AllocError>
    ensures { OnOk result (out.new.items ≡ out.old.items ++ integer_code value) }
{
    if value < 0 {
        out.push(1)?;
        out.push(-(value + 1) as u64)?;
    } else {
        out.push(0)?;
        out.push(value as u64)?;
    }
    Ok(())
}

/// The number of a kind.
pub fn kind_number(kind: IntKind) -> u64
    ensures { result ≡ kind_number kind }
{
    match kind {
        IntKind::Char => 0,
        IntKind::Int => 1,
        IntKind::Unsigned => 2,
    }
}

/// The number of a piece of a format: first the conversions, then the bytes.
fn piece_number(piece: Piece) -> u64
    ensures { result ≡ piece_number piece }
{
    match piece {
        Piece::Signed => 0,
        Piece::Plain => 1,
        Piece::Letter => 2,
        Piece::Byte(byte) => u64::from(byte) + 3,
    }
}

/// The number of what the end of a body does.
fn rule_number(rule: EndRule) -> u64
    ensures { result ≡ rule_number rule }
{
    match rule {
        EndRule::Nothing => 0,
        EndRule::Value => 1,
        EndRule::Main => 2,
        EndRule::Start => 3,
    }
}

/// The number of an operator with one operand.
fn unary_number(op: UnaryOp) -> u64
    ensures { result ≡ unary_number op }
{
    match op {
        UnaryOp::Plus => 0,
        UnaryOp::Minus => 1,
        UnaryOp::Not => 2,
        UnaryOp::Flip => 3,
    }
}

/// The number of `++` or `--`, before or behind its operand.
fn step_number(op: StepOp) -> u64
    ensures { result ≡ step_number op }
{
    match op {
        StepOp::PreUp => 0,
        StepOp::PreDown => 1,
        StepOp::PostUp => 2,
        StepOp::PostDown => 3,
    }
}

/// The number of an operator with two operands.
fn operator_number(op: BinOp) -> u64
    ensures { result ≡ operator_number op }
{
    match op {
        BinOp::Mul => 0,
        BinOp::Div => 1,
        BinOp::Rem => 2,
        BinOp::Add => 3,
        BinOp::Sub => 4,
        BinOp::Shl => 5,
        BinOp::Shr => 6,
        BinOp::Lt => 7,
        BinOp::Gt => 8,
        BinOp::Le => 9,
        BinOp::Ge => 10,
        BinOp::Eq => 11,
        BinOp::Ne => 12,
        BinOp::BitAnd => 13,
        BinOp::BitXor => 14,
        BinOp::BitOr => 15,
    }
}
