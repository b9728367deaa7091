//! A base, and what it tells.

ghost use Rattle.std.specs.Prelude.{◌≡◌, IfOk, MatchOption, Ok, length};
ghost use Rattle.durable_machine.specs.Batches.{bytes_of};
ghost use Rattle.durable_machine.specs.Bases.{BeginsBase, BeginsNoBase};
ghost use Rattle.image_base.specs.Base.{IsBaseOf, IsMadeBy, IsNoText, this_device};
ghost use Rattle.image_base.specs.Loaded.{told_by};
ghost use Rattle.image_text.specs.Reading.{namespace_in};
ghost use Rattle.image_text.specs.Text.{text};

use crate::front::{add_front, after_label};
use crate::sections::{SECTIONS, add_sections, sections_in};
use durable_machine::{add_event, first_event};
use image_store::Image;
use image_text::{Buffer, ImageText, LoadFault};
use std::alloc::{AllocError, Global};

/// What a base tells.
#[derive(Drop)]
pub struct Base {
    /// The image.
    pub image: Image,
    /// The sections, in order.
    pub sections: Vec<Vec<u8>>,
}

/// What a base at the front of a file tells, and the base's length in bytes; `None` where no base stands there.
///
/// # Errors
///
/// No memory.
pub fn load_base(alloc: Global, file: &[u8]) -> Result<Option<(Base, usize)>, AllocError>
    ensures { IfOk result (λ found. MatchOption found
        (BeginsNoBase IsBaseOf file.now) (λ base. BeginsBase IsBaseOf (told_by base.0) base.1 file.now)) }
{
    let Some(after_front) = after_label(file) else {
        return Ok(None);
    };
    let Some((text, rest)) = first_event(after_front) else {
        return Ok(None);
    };
    let Some(image) = image_of(alloc, text)? else {
        return Ok(None);
    };
    let Some((sections, after)) = sections_in(alloc, rest)? else {
        return Ok(None);
    };
    Ok(Some((Base { image, sections }, file.len() - after)))
}

/// A base that tells an image and sections, with the label of this device.
///
/// # Errors
///
/// No memory.
pub fn save_base(alloc: Global, image: &Image, sections: &[Vec<u8>]) -> Result<Vec<u8>, AllocError>
    requires { length sections.now ≡ SECTIONS }
    ensures is { IfOk result (λ base. IsBaseOf base.items (record { namespace = image.now; sections = bytes_of sections.now })) }
    ensures labelled { IfOk result (λ base. IsMadeBy this_device base.items) }
{
    // Brings in what holds of each image.
    let _ = image.geometry();
    let text = text_of(alloc, image)?;
    let mut base = Vec::new(alloc);
    add_front(&mut base)?;
    add_event(&mut base, &text)?;
    add_sections(&mut base, sections)?;
    Ok(base)
}

/// The image of a text; `None` where the bytes are none.
fn image_of(alloc: Global, text: &[u8]) -> Result<Option<Image>, AllocError>
    ensures { IfOk result (λ found. MatchOption found (IsNoText text.now) (λ image. namespace_in text.now ≡ Ok image)) }
{
    let mut source = text;
    match Image::load(alloc, &mut source) {
        Ok(image) => Ok(Some(image)),
        Err(LoadFault::Memory) => Err(AllocError),
        Err(_) => Ok(None),
    }
}

/// The text of an image.
fn text_of(alloc: Global, image: &Image) -> Result<Vec<u8>, AllocError>
    ensures { IfOk result (λ bytes. bytes.items ≡ text image.now) }
{
    let mut buffer = Buffer::new(alloc);
    match image.save(&mut buffer) {
        Ok(()) => Ok(buffer.into_bytes()),
        Err(_) => Err(AllocError),
    }
}
