//! What keeps images.

ghost use Rattle.std.specs.Prelude.{OnOk};
ghost use Rattle.image_store.specs.Namespace.{ZonedNamespace};

use image_store::Image;

/// An image wasn't kept.
#[derive(Clone, Copy, Debug, PartialEq, Eq)]
pub struct NotKept;

/// Keeps the images that a stream asks to be saved.
pub trait Keep {
    /// It may be asked to keep an image.
    ghost is_ready: { Self → Type 0 };

    /// What it may come to from the first state to the second by keeping images, or by failing to.
    ghost becomes: { Self → Self → Type 0 };

    /// From the first state to the second it kept an image of this namespace. Where it doesn't say, this holds of any.
    ghost has_kept: { Self → Self → ZonedNamespace → Type 0 };

    /// Keeps an image, in place of the one that it kept before.
    ///
    /// # Errors
    ///
    /// [`NotKept`] where it can't.
    fn keep(&mut self, image: &Image) -> Result<(), NotKept>
        requires { is_ready self.old }
        ensures ready { is_ready self.new }
        ensures becomes { becomes self.old self.new }
        ensures kept { OnOk result (has_kept self.old self.new image.now) };

    /// As long as it keeps none, it stays what it is.
    ghost stays: { (keeper : Self) → becomes keeper keeper };

    /// What it comes to in two parts it comes to in the whole.
    ghost joins: { (a b c : Self) → becomes a b → becomes b c → becomes a c };
}

/// Keeps no image: a device in a journal is on the disk as it is, so a save is answered at once.
#[derive(Clone, Copy, Debug)]
pub struct KeepsNothing;

impl Keep for KeepsNothing {
    ghost is_ready = { λ keeper. Unit {0} };

    ghost becomes = { λ old new. Unit {0} };

    ghost has_kept = { λ old new namespace. Unit {0} };

    fn keep(&mut self, _image: &Image) -> Result<(), NotKept> {
        Ok(())
    }

    ghost stays = { λ keeper. tt };

    ghost joins = { λ a b c first then. tt };
}
