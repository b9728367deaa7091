//! An image, loaded from its text and saved as it.

ghost use Rattle.std.specs.Prelude.{◌≡◌, ◌↔◌, ◌-◌, ◌^◌, ◌<◌, IfOk, IsTrue};
ghost use Rattle.common_definitions.specs.Failures.{CountsFailure};
ghost use Rattle.image_store.specs.Namespace.{ZonedNamespace};
ghost use Rattle.image_text.specs.Loading.{LoadsText, CountsLoad};
ghost use Rattle.image_text.specs.Streams.{Takes};
ghost use Rattle.image_text.specs.Text.{text};

use crate::fault::LoadFault;
use crate::same_text::{self, Difference};
use crate::streams::{Sink, Source, StreamFault};
use crate::{load, save};
use image_store::Image;
use std::alloc::Global;

/// What has a text: an [`Image`].
pub trait ImageText {
    /// The namespace that the text is of.
    ghost namespace: { Self → ZonedNamespace };

    /// The image whose text comes from a source. Where the source tells its bytes, just the texts of the image format
    /// load, of both versions, each as the namespace that it stands for; of others the first fault is told, with the
    /// numbers of the header or of the zone row that has it. Memory is wanted only behind a header that is accepted.
    ///
    /// # Errors
    ///
    /// The fault of the first test of the text that fails, or [`LoadFault::Stream`] where the source fails, or
    /// [`LoadFault::Memory`] where memory is refused once the header is accepted.
    fn load<R: Source>(alloc: Global, source: &mut R) -> Result<Self, LoadFault>
        requires { R.failures source.old < 2 ^ 64 - 1 }
        ensures image { R.tells → LoadsText namespace (R.rest source.old) result }
        ensures failures { CountsLoad (R.failures source.old) (R.failures source.new) result };

    /// Hands the image's text, that of version 2, to a sink. Where the sink fails, it has a beginning of the text.
    ///
    /// # Errors
    ///
    /// [`StreamFault`] where the sink fails, which then has a beginning of the text.
    fn save<W: Sink>(&self, sink: &mut W) -> Result<(), StreamFault>
        requires { W.failures sink.old < 2 ^ 64 - 1 }
        ensures text { W.tells → Takes (W.taken sink.old) (W.taken sink.new) (text (namespace self.now)) result }
        ensures failures { CountsFailure (W.failures sink.old) (W.failures sink.new) result };

    /// Is all that comes from a source the image's text?
    ///
    /// # Errors
    ///
    /// [`StreamFault`] where the source fails.
    fn is_text_of<R: Source>(&self, source: &mut R) -> Result<bool, StreamFault>
        requires { R.failures source.old < 2 ^ 64 - 1 }
        ensures same { R.tells → IfOk result (λ same. IsTrue same ↔ (R.rest source.old ≡ text (namespace self.now))) }
        ensures failures { CountsFailure (R.failures source.old) (R.failures source.new) result };
}

impl ImageText for Image {
    ghost namespace = { λ image. image };

    fn load<R: Source>(alloc: Global, source: &mut R) -> Result<Image, LoadFault> {
        let (geometry, zones, blocks) = load::load(alloc, source)?;
        Ok(Image::from_parts(geometry, zones, blocks))
    }

    fn save<W: Sink>(&self, sink: &mut W) -> Result<(), StreamFault> {
        save::save(self, sink)
    }

    fn is_text_of<R: Source>(&self, source: &mut R) -> Result<bool, StreamFault> {
        match same_text::compare(self, source) {
            Ok(()) => Ok(true),
            Err(Difference::Other) => Ok(false),
            Err(Difference::Stream) => Err(StreamFault),
        }
    }
}
