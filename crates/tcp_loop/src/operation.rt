//! What a loop asks for, and what came of it.

ghost use Rattle.std.specs.Prelude.{◌≡◌};
ghost use Rattle.tcp_loop.specs.Clock.{time_told};
ghost use Rattle.tcp_loop.specs.Disk.{is_done};
ghost use Rattle.tcp_loop.specs.Rounds.{is_again, is_to_end};
ghost use Rattle.tcp_loop.specs.Sockets.{has_come, taken_of};

/// How many connections there may be at a time.
pub const PLACES: usize = 40;

/// Which file an operation is for.
#[derive(Clone, Copy, Debug, PartialEq, Eq)]
pub enum Which {
    /// The one that is served, and locked.
    Held,
    /// A new one beside it, which isn't in its place yet.
    Beside,
}

/// Where something is waited for: connections by their places, and hosts that want to connect.
#[derive(Clone, Copy, Debug, PartialEq, Eq)]
pub struct Watched {
    /// The connections on which bytes may come.
    pub reads: [bool; PLACES],
    /// Those that may take bytes.
    pub writes: [bool; PLACES],
    /// Whether a host may connect.
    pub accepts: bool,
}

/// What a loop asks for next. One that carries bytes has them in [`Loop::bytes`](crate::Loop::bytes).
#[derive(Clone, Copy, Debug, PartialEq, Eq)]
pub enum Operation {
    /// Waits until something happens there or a signal comes, for so many milliseconds at most.
    Poll { watched: Watched, milliseconds: u32 },
    /// Takes a signal that came.
    Signal,
    /// Asks for the time of a clock that only goes on.
    Now,
    /// Takes a connection that a host begins, into a place without one. The place [`PLACES`] is for one that is closed at once.
    Accept { place: usize },
    /// Reads what came on a connection, at most [`INCOMING`](crate::INCOMING) bytes.
    Read { place: usize },
    /// Writes the first of the bytes that it carries on a connection, as many as that takes.
    Write { place: usize },
    /// Closes a connection.
    Close { place: usize },
    /// Writes all the bytes that it carries to a file, at an offset.
    Pwrite { file: Which, at: usize },
    /// Sets the length of the file that is held.
    Ftruncate { len: usize },
    /// Waits until all that was written to a file is on the disk.
    Fsync { file: Which },
    /// Makes the file beside, empty, with the owner and the permissions of the one that is held; one that a killed program left is
    /// replaced. It is locked from the first on.
    Create,
    /// Gives the file beside the name of the one that is held, which it is from then on.
    Rename,
    /// Waits until the names in their folder are on the disk.
    SyncFolder,
    /// Removes the file beside.
    Discard,
    /// Prints the line that it carries, and why the last operation failed, where that is asked for.
    Log { cause: bool },
    /// Ends the program, which has done all, or has failed.
    End { done: bool },
}

/// What happened where it was waited for.
#[derive(Clone, Copy, Debug, PartialEq, Eq)]
pub struct Ready {
    /// The connections on which bytes came, or that are over.
    pub reads: [bool; PLACES],
    /// Those that take bytes, or are over.
    pub writes: [bool; PLACES],
    /// Whether a host wants to connect.
    pub accepts: bool,
    /// Whether a signal came.
    pub signals: bool,
}

/// What came of an operation. Bytes that came stand beside it.
#[derive(Clone, Copy, Debug, PartialEq, Eq)]
pub enum Answer {
    /// It is done.
    Done,
    /// Bytes came, at least one.
    Came,
    /// So many bytes were taken.
    Taken { count: usize },
    /// Nothing now: no host connects, nothing has come, or nothing is taken.
    Again,
    /// There is no room: no descriptor for a connection, or no space on the disk.
    NoRoom,
    /// It failed; a connection is over.
    Failed,
    /// What happened where it was waited for.
    Happened { ready: Ready },
    /// The time, in microseconds.
    Time { now: u64 },
    /// A signal: to end, or to report.
    Signal { ends: bool },
}

/// Is an operation done?
pub(crate) fn is_done(answer: Answer) -> bool
    ensures { result ≡ is_done answer }
{
    match answer {
        Answer::Done => true,
        Answer::Came => false,
        Answer::Taken { .. } => false,
        Answer::Again => false,
        Answer::NoRoom => false,
        Answer::Failed => false,
        Answer::Happened { .. } => false,
        Answer::Time { .. } => false,
        Answer::Signal { .. } => false,
    }
}

/// Did bytes come?
pub(crate) fn has_come(answer: Answer) -> bool
    ensures { result ≡ has_come answer }
{
    match answer {
        Answer::Came => true,
        Answer::Done => false,
        Answer::Taken { .. } => false,
        Answer::Again => false,
        Answer::NoRoom => false,
        Answer::Failed => false,
        Answer::Happened { .. } => false,
        Answer::Time { .. } => false,
        Answer::Signal { .. } => false,
    }
}

/// May there be something later?
pub(crate) fn is_again(answer: Answer) -> bool
    ensures { result ≡ is_again answer }
{
    match answer {
        Answer::Again => true,
        Answer::Came => false,
        Answer::Done => false,
        Answer::Taken { .. } => false,
        Answer::NoRoom => false,
        Answer::Failed => false,
        Answer::Happened { .. } => false,
        Answer::Time { .. } => false,
        Answer::Signal { .. } => false,
    }
}

/// Is the program to end by a signal?
pub(crate) fn is_to_end(answer: Answer) -> bool
    ensures { result ≡ is_to_end answer }
{
    match answer {
        Answer::Signal { ends } => ends,
        Answer::Done => false,
        Answer::Came => false,
        Answer::Taken { .. } => false,
        Answer::Again => false,
        Answer::NoRoom => false,
        Answer::Failed => false,
        Answer::Happened { .. } => false,
        Answer::Time { .. } => false,
    }
}

/// How many bytes were taken, if some might be.
pub(crate) fn taken_of(answer: Answer) -> Option<usize>
    ensures { result ≡ taken_of answer }
{
    match answer {
        Answer::Taken { count } => Some(count),
        Answer::Done => None,
        Answer::Came => None,
        Answer::Again => None,
        Answer::NoRoom => None,
        Answer::Failed => None,
        Answer::Happened { .. } => None,
        Answer::Time { .. } => None,
        Answer::Signal { .. } => None,
    }
}

/// The time that is told, if it is.
pub(crate) fn time_told(answer: Answer) -> Option<u64>
    ensures { result ≡ time_told answer }
{
    match answer {
        Answer::Time { now } => Some(now),
        Answer::Done => None,
        Answer::Came => None,
        Answer::Taken { .. } => None,
        Answer::Again => None,
        Answer::NoRoom => None,
        Answer::Failed => None,
        Answer::Happened { .. } => None,
        Answer::Signal { .. } => None,
    }
}
