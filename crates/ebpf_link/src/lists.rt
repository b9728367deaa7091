//! Lists of numbers and answers, by place.

ghost use Rattle.std.specs.Prelude.{◌≡◌, slice_index};

use std::alloc::{AllocError, Global};

/// The number at a place of a list, or 0.
pub(crate) fn number_at(list: &[usize], place: usize) -> usize
    ensures { result ≡ slice_index list.now place }
{
    match list.get(place) {
        Some(found) => *found,
        None => 0,
    }
}

/// Sets the number at a place of a list, if there is one.
pub(crate) fn set_number(list: &mut [usize], place: usize, number: usize) {
    if let Some(found) = list.get_mut(place) {
        *found = number;
    }
}

/// Sets the answer at a place of a list, if there is one.
pub(crate) fn set_answer(list: &mut [bool], place: usize, answer: bool) {
    if let Some(found) = list.get_mut(place) {
        *found = answer;
    }
}

/// The answers for the slots that others were made of.
pub(crate) fn answers_of(
    alloc: Global,
    answers: &[bool],
    origins: &[usize],
) -> Result<Vec<bool>, AllocError> {
    let mut list = Vec::new(alloc);
    for origin in origins {
        list.push(matches!(answers.get(*origin), Some(true)))?;
    }
    Ok(list)
}
