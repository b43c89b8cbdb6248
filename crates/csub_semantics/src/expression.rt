//! Resolved expressions: each operand has its converted kind.
use csub_objects::CType;
use csub_text::{BinOp, StepOp, Text, UnaryOp};
use csub_types::IntKind;

/// Whose object a name is.
#[derive(Drop)]
pub enum Owner {
    /// An object of file scope, by its name.
    Global(Text),
    /// The k-th object of a name in its function, parameters counted first, from 1.
    Local(Text, u32),
}

/// A place (an lvalue, C11 6.3.2.1).
#[cycle(tree)]
pub enum Place {
    /// An object, with its declared type.
    Var(Owner, CType),
    /// An element of an array place, by its index (C11 6.5.2.1).
    Index(Box<Place>, Box<RExpr>),
    /// A member of a struct place, by its name (C11 6.5.2.3).
    Member(Box<Place>, Text),
}

impl Drop for Place {
    #[cycle(drop)]
    fn drop(self) {
        match self {
            Place::Var(_, _) => {}
            Place::Index(_, _) => {}
            Place::Member(_, _) => {}
        }
    }
}

/// A piece of a `printf` format (C11 7.21.6.1).
#[derive(Clone, Copy, Debug, PartialEq, Eq)]
pub enum Piece {
    /// A byte that is written as it is.
    Byte(u8),
    /// `%d`
    Signed,
    /// `%u`
    Plain,
    /// `%c`
    Letter,
}

/// An expression whose names, kinds and calls are resolved; user calls have been made before it.
#[cycle(tree)]
pub enum RExpr {
    /// A constant: its kind, and a value of that kind.
    Const(IntKind, i64),
    /// The number in a place.
    Read(Place),
    /// The result of an earlier call of the part, by the call's number, from 1.
    Temp(u32, IntKind),
    /// A unary operation in the promoted kind of its operand (C11 6.5.3.3).
    Unary(UnaryOp, IntKind, Box<RExpr>),
    /// A cast (C11 6.5.4).
    Cast(IntKind, Box<RExpr>),
    /// `++` and `--` (C11 6.5.2.4 and 6.5.3.1).
    Step(StepOp, Place),
    /// A binary operation in the kind to which its operands are converted.
    Binary(BinOp, IntKind, Box<RExpr>, Box<RExpr>),
    /// `a && b`, an `int`: the right operand is evaluated only where the left one isn't 0 (C11 6.5.13).
    And(Box<RExpr>, Box<RExpr>),
    /// `a || b`, an `int`: the right operand is evaluated only where the left one is 0 (C11 6.5.14).
    Or(Box<RExpr>, Box<RExpr>),
    /// `a ? b : c`, in the common kind of b and c, of which one alone is evaluated (C11 6.5.15).
    Choose(IntKind, Box<RExpr>, Box<RExpr>, Box<RExpr>),
    /// `place = e`, whose value is the number that is stored (C11 6.5.16.1).
    Assign(Place, Box<RExpr>),
    /// A compound assignment such as `place += e`, with the kind of its operation (C11 6.5.16.2).
    Update(Place, BinOp, IntKind, Box<RExpr>),
    /// `getchar()`, an `int`.
    Getchar,
    /// `putchar(e)`, an `int`.
    Putchar(Box<RExpr>),
    /// `printf` of a format and the values of its conversions, an `int` (C11 7.21.6.3).
    Printf(Vec<Piece>, Vec<RExpr>),
}

impl Drop for RExpr {
    #[cycle(drop)]
    fn drop(self) {
        match self {
            RExpr::Const(_, _) => {}
            RExpr::Read(_) => {}
            RExpr::Temp(_, _) => {}
            RExpr::Unary(_, _, _) => {}
            RExpr::Cast(_, _) => {}
            RExpr::Step(_, _) => {}
            RExpr::Binary(_, _, _, _) => {}
            RExpr::And(_, _) => {}
            RExpr::Or(_, _) => {}
            RExpr::Choose(_, _, _, _) => {}
            RExpr::Assign(_, _) => {}
            RExpr::Update(_, _, _, _) => {}
            RExpr::Getchar => {}
            RExpr::Putchar(_) => {}
            RExpr::Printf(_, _) => {}
        }
    }
}

/// An argument of a user call.
pub enum RArg {
    /// A number, which is converted to its parameter's kind.
    Value(RExpr),
    /// An array, to which its array parameter refers (C11 6.7.6.3p7).
    Array(Place),
}

impl Drop for RArg {
    fn drop(self) {
        match self {
            RArg::Value(_) => {}
            RArg::Array(_) => {}
        }
    }
}
