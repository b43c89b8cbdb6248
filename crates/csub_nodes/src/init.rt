//! Initial values of objects of functions by what they are made of (C11 6.7.9).
ghost use Rattle.std.specs.Prelude.{◌≡◌, IfOk, map};
ghost use Rattle.csub_semantics.specs.Labels.{init_tree as made_tree, inits_of as made_list, listed, one_value};
ghost use Rattle.csub_semantics.specs.Trees.{expr_tree as value_tree};

use crate::boxes::boxed_init;
use csub_semantics::{RExpr, RInit};
use std::alloc::{AllocError, Global};

/// A value that is given. An `Err` is want of memory.
pub fn one_value(alloc: Global, value: Box<RExpr>) -> Result<Box<RInit>, AllocError>
    ensures { IfOk result (λ made. made_tree made.value ≡ one_value (value_tree value.value)) }
{
    boxed_init(alloc, RInit::One(Box::into_inner(value)))
}

/// A list of values. An `Err` is want of memory.
pub fn list_value(alloc: Global, values: Vec<RInit>) -> Result<Box<RInit>, AllocError>
    ensures { IfOk result (λ made. made_tree made.value ≡ listed (made_list (map made_tree values.items))) }
{
    boxed_init(alloc, RInit::List(values))
}
