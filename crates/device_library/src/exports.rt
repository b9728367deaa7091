//! What C calls. Each export hands the handle that lies in C's memory to a function that says what it does. What C owes stands
//! in `c/pifnjarl_handle.h`; nothing checks it.

ghost use Rattle.std.specs.Borrow.{sem};
ghost use Rattle.std.specs.Ptr.{room_at};
ghost use Rattle.device_library.specs.Asked.{Asked};
ghost use Rattle.device_library.specs.Calls.{Called, Held};
ghost use Rattle.device_library.specs.Lying.{lies, lies_holding, lies_some};
ghost use Rattle.device_library.specs.Opening.{IsMade};
ghost use Rattle.device_library.specs.Sessions.{KeepsAll};
ghost use Rattle.device_library.specs.contracts.handle.Handle.{the_row as handle-row};
ghost use Rattle.device_library.specs.declared.handle.Handle.{Handle};

use crate::calls::call;
use crate::event::ReplyHead;
use crate::handle::{self, Handle};
use std::alloc::Global;

/// How many bytes of memory a handle needs, aligned to 16.
#[unsafe(no_mangle)]
pub extern "C" fn pifnjarl_handle_bytes() -> usize {
    std::mem::size_of::<Handle>()
}

/// Opens a device or a target by a door, in the memory at `handle`, on these bytes. Where they are refused or memory is wanting, a handle
/// lies there all the same, which has neither.
#[unsafe(no_mangle)]
pub unsafe extern "C" fn pifnjarl_handle_open(
    alloc: Global,
    handle: *mut u8,
    door: u32,
    bytes: &[u8],
)
    requires* { sem 𝓛 (room_at handle-row handle) }
    ensures* { sem 𝓛 (lies_some handle (λ w. IsMade door bytes.now w)) }
{
    std::ptr::write(handle as *mut Handle, handle::make(alloc, door, bytes))
}

/// Does what is asked for, and gives the answer.
#[unsafe(no_mangle)]
pub unsafe extern "C" fn pifnjarl_handle_call(
    handle: *mut u8,
    kind: u32,
    number: usize,
    count: usize,
    piece: &[u8],
    beside: &[u8],
    reply: &mut ReplyHead,
    out: &mut [u8],
) -> usize
    ghost h: { Handle }
    requires* { sem 𝓛 (lies_holding handle h KeepsAll) }
    ensures* { sem 𝓛 (lies_some handle (λ w. Called kind
        (record { number = number; count = count; piece = piece.now; beside = beside.now })
        (record { handle = h; reply = reply.old; out = out.old }) (record { handle = w; reply = reply.new; out = out.new }) result)) }
{
    call(
        &mut *(handle as *mut Handle),
        kind,
        number,
        count,
        piece,
        beside,
        reply,
        out,
    )
}

/// Ends what a handle has. What lay in the memory at `handle` is gone, and the memory is C's again.
#[unsafe(no_mangle)]
pub unsafe extern "C" fn pifnjarl_handle_end(handle: *mut u8)
    ghost h: { Handle }
    requires* { sem 𝓛 (lies handle h) }
    ensures* { sem 𝓛 (room_at handle-row handle) }
{
    handle::end(std::ptr::read(handle as *mut Handle))
}
