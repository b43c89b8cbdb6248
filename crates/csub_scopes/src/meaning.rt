//! What declared names and tags mean.
use csub_objects::{CType, Members};
use csub_text::Text;
use csub_types::IntKind;

/// A function as its calls see it (C11 6.7.6.3).
#[derive(Drop)]
pub struct Signature {
    /// The types of its parameters, in order.
    pub params: Vec<CType>,
    /// The kind of its result; none where it gives nothing.
    pub result: Option<IntKind>,
}

/// What a name means (C11 6.2.1p1).
#[derive(Drop)]
pub enum Meaning {
    /// An object of file scope.
    Global(CType),
    /// An object of a function: the k-th of its name there, parameters counted first.
    Local(u32, CType),
    /// A constant of an enumeration (C11 6.7.2.2).
    Constant(i64),
    /// A function.
    Function(Signature),
    /// An object whose declaration has a type that breaks a rule, so that it has none.
    Untyped,
}

/// A declaration of a name.
#[derive(Drop)]
pub struct Declared {
    /// The name.
    pub name: Text,
    /// How many blocks stand round the declaration, 0 at file scope.
    pub depth: u32,
    /// What the name means.
    pub meaning: Meaning,
}

/// A declaration of a tag (C11 6.7.2.3).
#[derive(Drop)]
pub struct Tagged {
    /// The tag.
    pub tag: Text,
    /// The members of a struct; none for an enumeration.
    pub members: Option<Members>,
}
