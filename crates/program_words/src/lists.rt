//! Lists and boxes of anything: what is left over for want of memory is dropped here, once for all types.
use crate::error::Unread;
use std::alloc::{AllocError, Global};

/// Adds to a list.
pub fn push<T: Drop>(list: &mut Vec<T>, item: T) -> Result<(), Unread> {
    match list.push(item) {
        Ok(()) => Ok(()),
        Err(failed) => Err(AllocError::from(failed).into()),
    }
}

/// Something in a box.
pub fn boxed<T: Drop>(alloc: Global, item: T) -> Result<Box<T>, Unread> {
    match Box::new(alloc, item) {
        Ok(made) => Ok(made),
        Err(failed) => Err(AllocError::from(failed).into()),
    }
}

/// The last of a list, which it loses.
pub fn last<T: Drop>(list: &mut Vec<T>) -> Result<T, Unread> {
    list.pop().ok_or(Unread::Operand)
}

/// The last ones of a list, which it loses, in the order of the text.
pub fn last_ones<T: Drop>(
    alloc: Global,
    list: &mut Vec<T>,
    count: usize,
) -> Result<Vec<T>, Unread> {
    let mut taken = Vec::new(alloc);
    for _ in 0..count {
        push(&mut taken, last(list)?)?;
    }
    Ok(taken)
}

/// All of a list, which is empty then, in the order of the text.
pub fn all<T: Drop>(alloc: Global, list: &mut Vec<T>) -> Result<Vec<T>, Unread> {
    let count = list.len();
    last_ones(alloc, list, count)
}
