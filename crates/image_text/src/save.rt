//! Saving an image.

ghost use Rattle.std.specs.Prelude.{◌<◌, ◌-◌, ◌^◌};
ghost use Rattle.image_text.specs.Streams.{Takes};
ghost use Rattle.common_definitions.specs.Failures.{CountsFailure};
ghost use Rattle.image_text.specs.Text.{text, zone_rows, blocks_text};

use crate::streams::{Sink, StreamFault};
use crate::{header, zone_row};
use image_store::{Image, Zone};

/// Hands the text of an image to a sink.
///
/// # Errors
///
/// [`StreamFault`] where the sink fails.
pub fn save<W: Sink>(image: &Image, sink: &mut W) -> Result<(), StreamFault>
    requires { W.failures sink.old < 2 ^ 64 - 1 }
    ensures text { W.tells → Takes (W.taken sink.old) (W.taken sink.new) (text image.now) result }
    ensures failures { CountsFailure (W.failures sink.old) (W.failures sink.new) result }
{
    let geometry = image.geometry();
    let zones = image.zones();
    let total = zone_row::written_blocks(zones);
    write_all(sink, &header::encode(geometry, total))?;
    write_zone_rows(sink, zones)?;
    write_blocks(sink, image)
}

/// Hands the row of each zone to a sink.
fn write_zone_rows<W: Sink>(sink: &mut W, zones: &[Zone]) -> Result<(), StreamFault>
    requires { W.failures sink.old < 2 ^ 64 - 1 }
    ensures text { W.tells → Takes (W.taken sink.old) (W.taken sink.new) (zone_rows zones.now) result }
    ensures failures { CountsFailure (W.failures sink.old) (W.failures sink.new) result }
{
    for zone in zones {
        write_all(sink, &zone_row::encode(*zone))?;
    }
    Ok(())
}

/// Hands the written blocks of each zone to a sink.
fn write_blocks<W: Sink>(sink: &mut W, image: &Image) -> Result<(), StreamFault>
    requires { W.failures sink.old < 2 ^ 64 - 1 }
    ensures text { W.tells → Takes (W.taken sink.old) (W.taken sink.new) (blocks_text image.now.zones) result }
    ensures failures { CountsFailure (W.failures sink.old) (W.failures sink.new) result }
{
    for zone in 0..image.geometry().zones() {
        let written = image.zone(zone).written();
        write_all(sink, image.blocks(zone, 0, written))?;
    }
    Ok(())
}

/// Hands all bytes to a sink.
fn write_all<W: Sink>(sink: &mut W, bytes: &[u8]) -> Result<(), StreamFault>
    requires { W.failures sink.old < 2 ^ 64 - 1 }
    ensures text { W.tells → Takes (W.taken sink.old) (W.taken sink.new) bytes.now result }
    ensures failures { CountsFailure (W.failures sink.old) (W.failures sink.new) result }
{
    let mut rest = bytes;
    while !rest.is_empty() {
        let count = sink.write(rest)?;
        rest = &rest[count..];
    }
    Ok(())
}
