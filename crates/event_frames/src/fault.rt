//! Why a stream isn't read on.

ghost use Rattle.std.specs.Prelude.{◌≡◌};
ghost use Rattle.event_frames.specs.Faults.{expected_words, field_number, refused_at};

/// A field of a header.
#[derive(Clone, Copy, Debug, PartialEq, Eq)]
pub enum Field {
    /// What the frame is of.
    Kind,
    /// A run, or the state of a fault.
    Part,
    /// A queue.
    Queue,
    /// A zone, or a number of turns.
    Number,
    /// How much data there is.
    Length,
    /// The four zeros.
    Zeros,
}

/// Why a stream isn't read on. A place is that of a byte, counted from 0 on, in the whole stream.
#[derive(Clone, Copy, Debug, PartialEq, Eq)]
pub enum StreamFault {
    /// A byte that no request has there.
    Byte {
        /// Where it stands.
        place: u64,
        /// The field of the header that it is of.
        field: Field,
    },
    /// The stream ends within a frame.
    CutOff {
        /// Where the next byte would stand.
        place: u64,
    },
    /// Memory is wanting.
    Memory,
}

impl Field {
    /// What a byte of this field is to be a part of.
    pub fn expected(self) -> &'static str
        ensures { result.now ≡ expected_words self }
    {
        match self {
            Field::Kind => "a kind of request, from 1 to 5",
            Field::Part => "the run of a turn, or 1 or 2 of a fault, or else 0",
            Field::Queue => "the queue of a submission, or else 0",
            Field::Number => "the zone of a fault or the turns of a drain, or else 0",
            Field::Length => "the bytes of a submission's data, at most 131072, or else 0",
            Field::Zeros => "0",
        }
    }

    /// The number of a fault of this field, from 1 to 6.
    pub fn number(self) -> u8
        ensures { result ≡ field_number self }
    {
        match self {
            Field::Kind => 1,
            Field::Part => 2,
            Field::Queue => 3,
            Field::Number => 4,
            Field::Length => 5,
            Field::Zeros => 6,
        }
    }
}

impl StreamFault {
    /// Where the stream is refused, as the place of a byte in it, and the number of the fault: that of the field, or 7 where the
    /// stream ends there within a frame. None where memory ran out.
    pub fn refused_at(self) -> Option<(u64, u8)>
        ensures { result ≡ refused_at self }
    {
        match self {
            StreamFault::Byte { place, field } => Some((place, field.number())),
            StreamFault::CutOff { place } => Some((place, 7)),
            StreamFault::Memory => None,
        }
    }
}
