//! What a loop serves.

ghost use Rattle.std.specs.Prelude.{◌≡◌, ◌↔◌, ◌≤◌, ◌<◌, [], ℕ, List, Option, Some, length, IfOk, IfSome, IsNone, OnErr, OnOk};
ghost use Rattle.tcp_loop.specs.Deeds.{Closed, Meaning, Opened, Received, Resumed, Sent, Served, Ticked, Turned};
ghost use Rattle.tcp_loop.specs.Keeping.{IsCommitted, IsFolded, IsNext, IsToldDone, KeptState, wanted_by};

use crate::operation::PLACES;
use std::alloc::AllocError;
use stored_file::FileError;

/// How many runs a device has at a time.
pub const RUNS: usize = 8;

/// A call for the file that keeps the device, whose bytes stand beside it.
#[derive(Clone, Copy, Debug, PartialEq, Eq)]
pub enum Call {
    /// Bytes are written at an offset, over what is there and past the end.
    Write { at: usize },
    /// Bytes that are there are written again.
    Renew { at: usize },
    /// The length is set.
    Shorten { len: usize },
    /// All that was written is brought to the disk.
    Sync,
    /// A new file of these bytes takes the place of this one.
    Replace,
    /// A new file of these bytes is to take its place once there is room for it; nothing changes yet.
    Want,
}

/// Is a new file made for a call? And is that only wanted?
pub(crate) fn wanted_by(call: Call) -> Option<bool>
    ensures { result ≡ wanted_by call }
{
    match call {
        Call::Replace => Some(false),
        Call::Want => Some(true),
        Call::Write { .. } => None,
        Call::Renew { .. } => None,
        Call::Shorten { .. } => None,
        Call::Sync => None,
    }
}

/// A target with its device, and what keeps that in a file. What hosts ask for is done at once, and what answers it is to be sent once it
/// is committed. After an `Err` the file has to be opened again, and nothing may be sent.
pub trait KeptTarget {
    /// A target with its device.
    type State;

    /// It, and the calls for its file.
    ghost at: { Self → KeptState Self.State };

    /// What is said of it.
    ghost means: { Meaning Self.State };

    /// The number that the next connection gets.
    ghost free: { Self.State → Option ℕ };

    /// The number that the next connection gets; `None` where there is none.
    fn free(&self) -> Option<usize>
        ensures number { result ≡ free (at self.now).state }
        ensures within { IfSome result (λ number. number < PLACES) };

    /// Begins a connection, at this number.
    fn open(&mut self, number: usize)
        requires { free (at self.old).state ≡ Some number }
        ensures done { means.does (Opened number) (at self.old).state (at self.new).state }
        ensures file { (at self.new).file ≡ (at self.old).file };

    /// Takes the first bytes of what came on a connection, and gives how many.
    fn receive(&mut self, number: usize, piece: &[u8]) -> usize
        requires { number < PLACES }
        ensures done { means.does (Received number piece.now result) (at self.old).state (at self.new).state }
        ensures within { result ≤ length piece.now }
        ensures file { (at self.new).file ≡ (at self.old).file };

    /// Does the command that is ready on a connection, and says whether there is one.
    ///
    /// # Errors
    ///
    /// No memory for the journal.
    fn serve(&mut self, number: usize) -> Result<bool, AllocError>
        requires { number < PLACES }
        ensures done { OnOk result (means.does (Served number) (at self.old).state (at self.new).state) }
        ensures file { OnOk result ((at self.new).file ≡ (at self.old).file) }
        ensures refused { OnErr result (at self.new ≡ at self.old) };

    /// What is to be sent on a connection, once it is committed.
    fn unsent(&self, number: usize) -> &[u8]
        requires { number < PLACES }
        ensures { result.now ≡ means.to_send number (at self.now).state };

    /// Forgets the first bytes of it, which were sent.
    fn sent(&mut self, number: usize, count: usize)
        requires number { number < PLACES }
        requires count { count ≤ length (means.to_send number (at self.old).state) }
        ensures done { means.does (Sent number count) (at self.old).state (at self.new).state }
        ensures file { (at self.new).file ≡ (at self.old).file }
        // It changes nothing that is kept.
        ensures kept { (c : List ℕ) → means.stands_for c (at self.old).state → means.stands_for c (at self.new).state };

    /// Has a connection ended? Then it is to be closed once all is sent.
    fn is_ended(&self, number: usize) -> bool
        requires { number < PLACES };

    /// Is it to be closed at once?
    fn is_given_up(&self, number: usize) -> bool
        requires { number < PLACES };

    /// Says that a connection is closed.
    fn close(&mut self, number: usize)
        requires { number < PLACES }
        ensures done { means.does (Closed number) (at self.old).state (at self.new).state }
        ensures file { (at self.new).file ≡ (at self.old).file };

    /// Says that so many milliseconds went by, the last of which end now.
    fn tick(&mut self, milliseconds: u32)
        ensures done { means.does (Ticked milliseconds) (at self.old).state (at self.new).state }
        ensures file { (at self.new).file ≡ (at self.old).file };

    /// Gives the next run a turn, and says whether there is one.
    ///
    /// # Errors
    ///
    /// No memory for the journal.
    fn turn(&mut self) -> Result<bool, AllocError>
        ensures done { OnOk result (means.does Turned (at self.old).state (at self.new).state) }
        ensures file { OnOk result ((at self.new).file ≡ (at self.old).file) }
        ensures refused { OnErr result (at self.new ≡ at self.old) };

    /// Gives a run a turn of which no connection waits, and says whether there was one.
    ///
    /// # Errors
    ///
    /// No memory for the journal.
    fn resume(&mut self, run: usize) -> Result<bool, AllocError>
        requires { run < RUNS }
        ensures done { OnOk result (means.does (Resumed run) (at self.old).state (at self.new).state) }
        ensures file { OnOk result ((at self.new).file ≡ (at self.old).file) }
        ensures refused { OnErr result (at self.new ≡ at self.old) };

    /// Commits what was done, once the calls are made that wait then.
    ///
    /// # Errors
    ///
    /// No memory, or the disk's.
    fn commit(&mut self) -> Result<(), FileError>
        ensures same { (at self.new).state ≡ (at self.old).state }
        ensures committed { OnOk result (IsCommitted means (at self.old) (at self.new)) };

    /// The call that is to be made next; `None` where all are made.
    fn next_call(&self) -> Option<Call>
        ensures none { IsNone result ↔ ((at self.now).file.waits ≡ []) }
        ensures first { IfSome result (λ call. IsNext means call (at self.now).file) };

    /// The bytes of that call.
    fn call_bytes(&self) -> &[u8]
        ensures { result.now ≡ (at self.now).file.bytes };

    /// Says that the next call is done.
    fn call_done(&mut self)
        ensures same { (at self.new).state ≡ (at self.old).state }
        ensures told { IsToldDone means (at self.old).file (at self.new).file };

    /// Has the file that was wanted, which is on the disk now, take the place of the one that is held, and says whether it does: then the
    /// call for it is the one after the next.
    ///
    /// # Errors
    ///
    /// No memory, or the disk's.
    fn fold(&mut self) -> Result<bool, FileError>
        ensures same { (at self.new).state ≡ (at self.old).state }
        ensures folded { IfOk result (λ is_put. IsFolded means is_put (at self.old) (at self.new)) };

    /// Has what is to be done before the end wait as calls: an image in memory is saved.
    ///
    /// # Errors
    ///
    /// No memory.
    fn finish(&mut self) -> Result<(), AllocError>
        ensures same { (at self.new).state ≡ (at self.old).state }
        ensures committed { OnOk result (IsCommitted means (at self.old) (at self.new)) };
}
