//! What holds of frames and streams.

ghost use Rattle.event_frames.specs.Laws.{FramesReadBack, StreamsSplitInOneWay};

/// A frame is read back, whatever stands behind it: no other request has these bytes, and none has a front of them.
pub fn frames_read_back()
    ensures { FramesReadBack }
{}

/// A stream splits in one way into requests and what stands behind the last whole frame. So what is read of it doesn't depend on
/// how it is cut into pieces.
pub fn streams_split_in_one_way()
    ensures { StreamsSplitInOneWay }
{}
