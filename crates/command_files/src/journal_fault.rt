//! What is wrong with a journal.

/// What is wrong at a byte of a journal.
#[derive(Clone, Copy)]
pub enum JournalFault {
    /// It doesn't begin with a whole base of a device.
    NoBase,
    /// No crash leaves what is there.
    OpenGate,
    /// No crash leaves what is there, and it is known how many batches can be read.
    Damaged {
        /// How many batches stand whole before it.
        whole: usize,
        /// How many stand whole after it, in sectors of their own.
        readable: usize,
    },
    /// The event there isn't done again.
    Undone,
    /// Another version of the device made it, or one with another profile.
    MadeBy {
        /// The version of the device's meaning.
        version: u64,
        /// The profile by which its Load accepts programs.
        profile: u64,
    },
}
