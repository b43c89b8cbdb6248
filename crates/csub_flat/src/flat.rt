//! Flat labels: slots in place of names.
use csub_semantics::{BinOp, EndRule, IntKind, Piece, StepOp, UnaryOp};

/// What is at a place.
#[derive(Clone, Copy, Debug, PartialEq, Eq)]
pub struct Form {
    /// The declared kind of a number, `int` where there is none.
    pub kind: IntKind,
    /// How many elements an array has, 0 where there is none.
    pub length: u32,
}

/// A variable, with what is there.
#[derive(Clone, Copy, Debug, PartialEq, Eq)]
pub enum FlatVariable {
    /// A slot of the frame, counted from the frame's first.
    Frame(u32, Form),
    /// A slot of the globals.
    Global(u32, Form),
    /// An array parameter: the slot of the frame, counted from its first, that says where the array begins and how many
    /// elements it has. The form is that of the array, without its length.
    Referring(u32, Form),
}

/// A part of an array or of a struct.
#[derive(Clone, Copy, Debug, PartialEq, Eq)]
pub struct FlatPart {
    /// How many slots an element has, or how many are before a member.
    pub slots: u32,
    /// What is there.
    pub form: Form,
}

/// A variable that is a slot of the frame, counted from the frame's first.
#[derive(Clone, Copy, Debug, PartialEq, Eq)]
pub struct FlatLocal {
    /// The slot.
    pub slot: u32,
    /// What is there.
    pub form: Form,
}

/// A constant of a kind.
#[derive(Clone, Copy, Debug, PartialEq, Eq)]
pub struct FlatConst {
    /// The kind.
    pub kind: IntKind,
    /// The number.
    pub value: i64,
}

impl FlatVariable {
    ghost use Rattle.std.specs.Prelude.{◌≡◌};
    ghost use Rattle.csub_flat.specs.Trees.{variable_form};
    ghost use Rattle.csub_flat.specs.Seen.{form_seen, variable_seen};

    /// What is there.
    pub fn form(self) -> Form
        ensures { form_seen result ≡ variable_form (variable_seen self) }
    {
        match self {
            FlatVariable::Frame(_, form)
            | FlatVariable::Global(_, form)
            | FlatVariable::Referring(_, form) => form,
        }
    }
}

/// A place.
#[derive(Drop)]
#[cycle(tree)]
pub enum FlatPlace {
    /// A variable.
    Variable(FlatVariable),
    /// An element of an array, by its index.
    Element(FlatPart, Box<FlatPlace>, Box<FlatExpr>),
    /// A member of a struct.
    Member(FlatPart, Box<FlatPlace>),
}

/// An expression. What programs do most has forms of its own, which are evaluated by fewer calls.
#[derive(Drop)]
#[cycle(tree)]
pub enum FlatExpr {
    /// A constant.
    Const(IntKind, i64),
    /// The number in a place.
    Read(FlatPlace),
    /// A unary operation.
    Unary(UnaryOp, IntKind, Box<FlatExpr>),
    /// A cast.
    Cast(IntKind, Box<FlatExpr>),
    /// `++` and `--`.
    Step(StepOp, FlatPlace),
    /// A binary operation.
    Binary(BinOp, IntKind, Box<FlatExpr>, Box<FlatExpr>),
    /// `a && b`.
    And(Box<FlatExpr>, Box<FlatExpr>),
    /// `a || b`.
    Or(Box<FlatExpr>, Box<FlatExpr>),
    /// `a ? b : c`.
    Choose(IntKind, Box<FlatExpr>, Box<FlatExpr>, Box<FlatExpr>),
    /// An assignment.
    Assign(FlatPlace, Box<FlatExpr>),
    /// A compound assignment.
    Update(FlatPlace, BinOp, IntKind, Box<FlatExpr>),
    /// `getchar()`.
    Getchar,
    /// `putchar(e)`.
    Putchar(Box<FlatExpr>),
    /// `printf` of a format and the values of its conversions.
    Printf(Vec<Piece>, Vec<FlatExpr>),
    /// The number in a variable of the frame.
    Local(FlatLocal),
    /// `++` and `--` of such a variable.
    StepLocal(StepOp, FlatLocal),
    /// An assignment to one.
    AssignLocal(FlatLocal, Box<FlatExpr>),
    /// A binary operation of an expression and a constant.
    BinaryConst(BinOp, IntKind, Box<FlatExpr>, FlatConst),
    /// A binary operation of a variable of the frame and an expression.
    BinaryLocal(BinOp, IntKind, FlatLocal, Box<FlatExpr>),
    /// A binary operation of a variable of the frame and a constant.
    BinaryLocalConst(BinOp, IntKind, FlatLocal, FlatConst),
}

/// What an argument gives to its parameter.
#[derive(Drop)]
pub enum FlatGiven {
    /// A number, which is converted to the parameter's kind.
    Number(IntKind, FlatExpr),
    /// An array, to which the parameter refers.
    Array(FlatPlace),
}

/// An argument, with the parameter that it goes to.
#[derive(Drop)]
pub struct FlatArg {
    /// The slot of the parameter, counted from the first of the callee's frame.
    pub slot: u32,
    /// What the argument gives.
    pub given: FlatGiven,
}

/// A call.
#[derive(Drop)]
pub struct FlatCall {
    /// The number of the callee's entry.
    pub entry: u32,
    /// How many slots a frame of the callee has.
    pub size: u32,
    /// The arguments.
    pub args: Vec<FlatArg>,
    /// The slot of the temporary that takes the result.
    pub temp: Option<u32>,
}

/// A step of an initialiser. Slots are counted from the frame's first.
#[derive(Drop)]
pub enum FlatWrite {
    /// A number goes to a slot, converted to a kind.
    Value(u32, IntKind, FlatExpr),
    /// 0 goes to so many slots, from one on. There is at least one.
    Zeros(u32, u32),
}

/// What is done at a point.
#[derive(Drop)]
pub enum FlatLabel {
    /// Nothing.
    Next,
    /// The end of a function; the first temporary of the frame, which the end of `#start` reads.
    Exit(EndRule, FlatVariable),
    /// An expression is evaluated for its effects.
    Eval(FlatExpr),
    /// An object gets its initial contents, one step after another.
    Init(Vec<FlatWrite>),
    /// A test.
    Branch(FlatExpr),
    /// The value of a `switch`, which decides its way out.
    Switch(FlatExpr),
    /// A return with a value, which is converted to a kind.
    Return(IntKind, FlatExpr),
    /// The end of the run, with the low 8 bits of a value.
    Halt(FlatExpr),
    /// A call.
    Call(FlatCall),
}
