//! Comparing the text of an image with what comes from a source.

ghost use Rattle.std.specs.Prelude.{◌≡◌, ◌≤◌, ◌<◌, ◌-◌, ◌^◌, [], length, IfOk};
ghost use Rattle.image_text.specs.SameText.{Compares, ComparesAll, ComparesPiece, CountsDifference};
ghost use Rattle.image_text.specs.Text.{text, zone_rows, blocks_text};
ghost use Rattle.image_text.specs.declared.same_text.Difference.TheVariants.{Stream};

use crate::streams::{Source, StreamFault};
use crate::{header, zone_row};
use image_store::{Image, Zone};

/// How many bytes are read at a time.
const PIECE_BYTES: usize = 65536;

/// Why what comes from a source isn't known to be a text.
#[derive(Clone, Copy)]
pub enum Difference {
    /// It is another one, or ends before the text does.
    Other,
    /// The source failed.
    Stream,
}

impl From<StreamFault> for Difference {
    ghost from_gives = { λ _ difference. difference ≡ Stream };

    fn from(_fault: StreamFault) -> Difference {
        Difference::Stream
    }
}

/// Is what comes from a source the text of an image, and nothing more? It is read up to the first piece that differs.
///
/// # Errors
///
/// The difference that was found.
pub fn compare<R: Source>(image: &Image, source: &mut R) -> Result<(), Difference>
    requires { R.failures source.old < 2 ^ 64 - 1 }
    ensures compares { R.tells → ComparesAll (R.rest source.old) (text image.now) result }
    ensures failures { CountsDifference (R.failures source.old) (R.failures source.new) result }
{
    let mut piece = [0; PIECE_BYTES];
    let geometry = image.geometry();
    let zones = image.zones();
    let total = zone_row::written_blocks(zones);
    compare_bytes(source, &mut piece, &header::encode(geometry, total))?;
    compare_zone_rows(source, &mut piece, zones)?;
    compare_blocks(source, &mut piece, image)?;
    compare_end(source)
}

/// Compares the row of each zone.
fn compare_zone_rows<R: Source>(
    source: &mut R,
    piece: &mut [u8],
    zones: &[Zone],
) -> Result<(), Difference>
    requires piece { 1 ≤ length piece.old }
    requires few { R.failures source.old < 2 ^ 64 - 1 }
    ensures compares { R.tells → Compares (R.rest source.old) (R.rest source.new) (zone_rows zones.now) result }
    ensures failures { CountsDifference (R.failures source.old) (R.failures source.new) result }
{
    for zone in zones {
        compare_bytes(source, piece, &zone_row::encode(*zone))?;
    }
    Ok(())
}

/// Compares the written blocks of each zone.
fn compare_blocks<R: Source>(
    source: &mut R,
    piece: &mut [u8],
    image: &Image,
) -> Result<(), Difference>
    requires piece { 1 ≤ length piece.old }
    requires few { R.failures source.old < 2 ^ 64 - 1 }
    ensures compares { R.tells → Compares (R.rest source.old) (R.rest source.new) (blocks_text image.now.zones) result }
    ensures failures { CountsDifference (R.failures source.old) (R.failures source.new) result }
{
    for zone in 0..image.geometry().zones() {
        let written = image.zone(zone).written();
        compare_bytes(source, piece, image.blocks(zone, 0, written))?;
    }
    Ok(())
}

/// Compares all of some bytes.
fn compare_bytes<R: Source>(
    source: &mut R,
    piece: &mut [u8],
    bytes: &[u8],
) -> Result<(), Difference>
    requires piece { 1 ≤ length piece.old }
    requires few { R.failures source.old < 2 ^ 64 - 1 }
    ensures compares { R.tells → Compares (R.rest source.old) (R.rest source.new) bytes.now result }
    ensures failures { CountsDifference (R.failures source.old) (R.failures source.new) result }
{
    let mut rest = bytes;
    while !rest.is_empty() {
        let count = compare_piece(source, piece, rest)?;
        rest = &rest[count..];
    }
    Ok(())
}

/// Compares the first of some bytes, as many as come at a time and the piece has room for, and says how many.
fn compare_piece<R: Source>(
    source: &mut R,
    piece: &mut [u8],
    bytes: &[u8],
) -> Result<usize, Difference>
    requires some { 1 ≤ length bytes.now }
    requires piece { 1 ≤ length piece.old }
    requires few { R.failures source.old < 2 ^ 64 - 1 }
    ensures goes_on { IfOk result (λ count. 1 ≤ count) }
    ensures bound { IfOk result (λ count. count ≤ length bytes.now) }
    ensures compares { R.tells → ComparesPiece (R.rest source.old) (R.rest source.new) bytes.now result }
    ensures failures { CountsDifference (R.failures source.old) (R.failures source.new) result }
{
    let most = bytes.len().min(piece.len());
    let to = &mut piece[..most];
    let count = source.read(to)?;
    if count == 0 || to[..count] != bytes[..count] {
        return Err(Difference::Other);
    }
    Ok(count)
}

/// Is nothing more to come?
fn compare_end<R: Source>(source: &mut R) -> Result<(), Difference>
    requires { R.failures source.old < 2 ^ 64 - 1 }
    ensures compares { R.tells → ComparesAll (R.rest source.old) [] result }
    ensures failures { CountsDifference (R.failures source.old) (R.failures source.new) result }
{
    let mut byte = [0; 1];
    let count = source.read(&mut byte)?;
    if count > 0 {
        return Err(Difference::Other);
    }
    Ok(())
}
