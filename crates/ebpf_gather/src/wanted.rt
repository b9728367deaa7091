//! What a program is made of.

use ebpf_object::{Function, Object};
use std::alloc::AllocError;

/// A function of C's library that is written out where it is called.
#[derive(Clone, Copy, Debug, PartialEq, Eq)]
pub enum LibraryFunction {
    /// `memcpy`: copies bytes.
    Copy,
    /// `memset`: fills bytes.
    Fill,
    /// `memcmp`: compares bytes.
    Compare,
}

/// A call of such a function with so many bytes.
#[derive(Clone, Copy, Debug, PartialEq, Eq)]
pub struct LibraryCall {
    /// The function.
    pub function: LibraryFunction,
    /// How many bytes.
    pub bytes: usize,
}

/// A function that a program is made of.
#[derive(Clone, Copy, Debug, PartialEq, Eq)]
pub enum Wanted {
    /// That of the symbol with this number.
    Symbol(usize),
    /// One of C's library.
    Library(LibraryCall),
}

/// The number of something in a list, at whose end it is put where it isn't there.
pub(crate) fn number_of<T: PartialEq + Copy>(
    list: &mut Vec<T>,
    wanted: T,
) -> Result<usize, AllocError> {
    for (number, found) in list.iter().enumerate() {
        if *found == wanted {
            return Ok(number);
        }
    }
    let number = list.len();
    list.push(wanted).map_err(AllocError::from)?;
    Ok(number)
}

/// The number of a symbol that stands for a function.
pub(crate) fn symbol_of(object: &Object<'_>, function: Function) -> Option<usize> {
    for number in 0..object.symbol_count() {
        if object.function(number) == Some(function) {
            return Some(number);
        }
    }
    None
}
