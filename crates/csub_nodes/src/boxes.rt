//! Labels, parts and initial values in boxes. Each type is boxed in one function, since a call of a generic function at a type of
//! many forms takes long to prove.
ghost use Rattle.std.specs.Prelude.{◌≡◌, IfOk};

use csub_semantics::{Label, RInit, RPart};
use std::alloc::{AllocError, Global};

/// A label in a box. An `Err` is want of memory.
pub fn boxed_label(alloc: Global, label: Label) -> Result<Box<Label>, AllocError>
    ensures { IfOk result (λ made. made.value ≡ label) }
{
    Ok(Box::new(alloc, label)?)
}

/// A part in a box. An `Err` is want of memory.
pub fn boxed_part(alloc: Global, part: RPart) -> Result<Box<RPart>, AllocError>
    ensures { IfOk result (λ made. made.value ≡ part) }
{
    Ok(Box::new(alloc, part)?)
}

/// Initial values in a box. An `Err` is want of memory.
pub fn boxed_init(alloc: Global, init: RInit) -> Result<Box<RInit>, AllocError>
    ensures { IfOk result (λ made. made.value ≡ init) }
{
    Ok(Box::new(alloc, init)?)
}
