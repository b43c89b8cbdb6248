//! Values and places in boxes. Each type is boxed in one function, since a call of a generic function at a type of many forms takes
//! long to prove.
ghost use Rattle.std.specs.Prelude.{◌≡◌, IfOk};

use csub_semantics::{Place, RExpr};
use std::alloc::{AllocError, Global};

/// A value in a box. An `Err` is want of memory.
pub(crate) fn boxed_value(alloc: Global, value: RExpr) -> Result<Box<RExpr>, AllocError>
    ensures { IfOk result (λ made. made.value ≡ value) }
{
    Ok(Box::new(alloc, value)?)
}

/// A place in a box. An `Err` is want of memory.
pub(crate) fn boxed_place(alloc: Global, place: Place) -> Result<Box<Place>, AllocError>
    ensures { IfOk result (λ made. made.value ≡ place) }
{
    Ok(Box::new(alloc, place)?)
}
