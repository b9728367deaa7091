//! What saves the images that a stream asks for.

ghost use Rattle.std.specs.Prelude.{◌≡◌, ℕ, List};
ghost use Rattle.std.specs.Borrow.{Bor};
ghost use Rattle.std.proofs.Common.{◌∙◌, ap, refl, subst};
ghost use Rattle.command_files.specs.Surroundings.{ChangesOnly};
ghost use Rattle.command_files.proofs.Proved.{changes_join, changes_none};
ghost use Rattle.command_serve.specs.Keeping.{HasKept, HoldsName, KeepsIn};

use command_files::{Failure, Files};
use command_images::image_file;
use device_serve::{Keep, NotKept};
use image_store::Image;

/// Saves images in the file whose name is held.
#[derive(Drop)]
pub struct ImageKeeper<'f, 'a, F> {
    pub files: &'f mut F,
    pub path: &'a str,
    /// Why an image wasn't saved: none is saved from then on.
    pub failure: Option<Failure<'a>>,
}

impl<F: Files> Keep for ImageKeeper<'_, '_, F> {
    ghost is_ready = { λ keeper. HoldsName F.Files keeper };

    ghost becomes = { λ old new. KeepsIn F.Files F.Writer.tells old new };

    ghost has_kept = { λ old new namespace. HasKept F.Files F.Reader.tells F.Writer.tells old new namespace };

    ghost stays = { λ keeper. record {
      same_files = refl;
      same_path = refl;
      changes = changes_none F.Files F.Writer.tells keeper.path.now keeper.files.now;
    } };

    ghost joins = { λ a b c first then. record {
      same_files = then.same_files ∙ first.same_files;
      same_path = then.same_path ∙ first.same_path;
      changes = changes_join F.Files F.Writer.tells a.path.now a.files.now b.files.now c.files.now first.changes
          (subst (λ (path : Bor (List ℕ)). ChangesOnly F.Files F.Writer.tells path.now b.files.now c.files.now) first.same_path then.changes);
    } };

    fn keep(&mut self, image: &Image) -> Result<(), NotKept> {
        if self.failure.is_some() {
            return Err(NotKept);
        }
        match image_file::save_changes(image, self.path, self.files) {
            Ok(()) => Ok(()),
            Err(failure) => {
                self.failure = Some(failure);
                Err(NotKept)
            }
        }
    }
}
