//! Lists that grow.

use std::alloc::AllocError;

/// Adds an item to a list. Its error is one that each failure takes.
pub(crate) fn add<T: Drop>(list: &mut Vec<T>, item: T) -> Result<(), AllocError> {
    list.push(item)?;
    Ok(())
}
