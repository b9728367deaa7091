//! The calls for a file, as a loop makes them.

ghost use Rattle.std.specs.Prelude.{◌≡◌, ◌↔◌, [], IfSome, IsNone};
ghost use Rattle.handed_file.specs.Handed.{waits};
ghost use Rattle.tcp_loop.specs.Keeping.{IsNext};
ghost use Rattle.tcp_device.specs.FileCalls.{call_of, keeping_of, next_bytes};
ghost use Rattle.tcp_device.specs.LoopMeaning.{in_memory, kept_in_file};

use handed_file::{FileCall, HandedFile};
use tcp_loop::Call;

/// A call without its bytes.
fn call_of(call: &FileCall) -> Call
    ensures { result ≡ call_of call.now }
{
    match call {
        FileCall::Write { at, .. } => Call::Write { at: *at },
        FileCall::Renew { at, .. } => Call::Renew { at: *at },
        FileCall::Shorten { len } => Call::Shorten { len: *len },
        FileCall::Sync => Call::Sync,
        FileCall::Replace { .. } => Call::Replace,
        FileCall::Want { .. } => Call::Want,
    }
}

/// The call that is to be made next for a file; `None` where all are made.
pub(crate) fn next_call(file: &HandedFile) -> Option<Call>
    ensures none { IsNone result ↔ (waits file.now ≡ []) }
    ensures first { IfSome result (λ call. IsNext kept_in_file call (keeping_of file.now)) }
    ensures first_in_memory { IfSome result (λ call. IsNext in_memory call (keeping_of file.now)) }
{
    match file.next() {
        Some(call) => Some(call_of(call)),
        None => None,
    }
}

/// The bytes of that call.
pub(crate) fn call_bytes(file: &HandedFile) -> &[u8]
    ensures { result.now ≡ (keeping_of file.now).bytes }
{
    match file.next() {
        Some(call) => call.bytes(),
        None => &[],
    }
}
