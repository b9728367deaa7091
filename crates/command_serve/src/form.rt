//! The form of a stream: frames, or lines.

ghost use Rattle.std.specs.Prelude.{◌≡◌, []};
ghost use Rattle.command_serve.specs.Streams.{IsReadyIn, ServesIn, end_of, seen, shelf};

use device_serve::{FrameCodec, FrameStreamRoom, Keep, KeptDevice, LineCodec, ServeFault};
use durable_device::Folds;
use std::alloc::Global;
use std::io::{Read, Write};

/// The form of a stream of which nothing has come.
#[derive(Drop)]
pub enum Form {
    /// Frames, in this room, with so many turns of the runs at most between two reads.
    Frames(FrameStreamRoom, u32),
    /// Lines.
    Lines(LineCodec),
}

/// Has a device serve a stream in this form, and keeps the images that frames ask to be saved. Beside how that ends it gives back what
/// keeps them.
pub(crate) fn serve_in<S: Folds + Drop, K: Keep + Drop, I: Read, O: Write>(
    alloc: Global,
    kept: &mut KeptDevice<S>,
    form: Form,
    keeper: K,
    input: &mut I,
    out: &mut O,
) -> (Result<(), ServeFault>, K)
    requires none { S.waits kept.old.events ≡ [] }
    requires settled { S.settled kept.old.device.value (S.disk kept.old.events) }
    requires ready { K.is_ready keeper }
    requires form { IsReadyIn form }
    ensures ready { K.is_ready result.1 }
    ensures becomes { K.becomes keeper result.1 }
    ensures serves { ServesIn K.has_kept K.becomes (shelf S.told S.settled) form
        (I.remaining input.old) (end_of result.0 (I.remaining input.new))
        (seen kept.old.device.value (O.contents out.old) (S.disk kept.old.events) keeper)
        (seen kept.new.device.value (O.contents out.new) (S.disk kept.new.events) result.1) }
{
    match form {
        Form::Frames(room, turns) => {
            let mut codec = FrameCodec::over(room, turns, true, keeper);
            let done = device_serve::serve(alloc, kept, &mut codec, input, out);
            (done, codec.into_keeper())
        }
        Form::Lines(codec) => {
            let mut codec = codec;
            let done = device_serve::serve(alloc, kept, &mut codec, input, out);
            (done, keeper)
        }
    }
}
