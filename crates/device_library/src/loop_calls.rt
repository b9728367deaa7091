//! The loop of a target as C asks it: which operation is to be made, by numbers and bytes, and what came of it. `target` has the same
//! numbers in `pifnjarl_loop.h`.

ghost use Rattle.std.specs.Prelude.{◌≡◌, ℕ, List, drop, length};
ghost use Rattle.tcp_loop.specs.Holding.{Carries, Makes};
ghost use Rattle.tcp_loop.specs.Kept.{phase_of};
ghost use Rattle.tcp_loop.specs.Stages.{IsReady, operation_of};
ghost use Rattle.device_library.specs.OperationAnswers.{answer_in, came_in, told_by};
ghost use Rattle.device_library.specs.Operations.{head_of, reads_of, writes_of};

use crate::answer_asked::AnswerAsked;
use crate::answered::{answer_in, came_in};
use crate::operation_head::{OperationHead, head_of, reads_of, writes_of};
use tcp_loop::{KeptTarget, Loop, PLACES};

/// The operation that is to be made, and how many bytes it carries.
pub fn operation<T: KeptTarget + Drop>(asked: &Loop<T>) -> (OperationHead, usize)
    requires { IsReady asked.now.stage asked.now.incoming.items (T.free (T.at asked.now.target).state) }
    ensures head { result.0 ≡ head_of (operation_of asked.now.stage) }
    ensures carried { (bytes : List ℕ) × Carries T.means asked.now.stage (T.at asked.now.target) bytes × (result.1 ≡ length bytes) }
{
    (head_of(asked.operation()), asked.bytes().len())
}

/// The bytes that it carries, from one on.
pub fn carried<T: KeptTarget + Drop>(asked: &Loop<T>, from: usize) -> &[u8]
    requires { IsReady asked.now.stage asked.now.incoming.items (T.free (T.at asked.now.target).state) }
    ensures { (bytes : List ℕ) × Carries T.means asked.now.stage (T.at asked.now.target) bytes × (result.now ≡ drop from bytes) }
{
    let bytes = asked.bytes();
    &bytes[from.min(bytes.len())..]
}

/// 1 for each place on which bytes may come, where something is waited for.
pub fn reads<T: KeptTarget + Drop>(asked: &Loop<T>) -> [u8; PLACES]
    ensures { result ≡ reads_of (operation_of asked.now.stage) }
{
    reads_of(asked.operation())
}

/// 1 for each that may take bytes.
pub fn writes<T: KeptTarget + Drop>(asked: &Loop<T>) -> [u8; PLACES]
    ensures { result ≡ writes_of (operation_of asked.now.stage) }
{
    writes_of(asked.operation())
}

/// Takes what came of the operation, and goes on to the next one.
pub fn step<T: KeptTarget + Drop>(asked: &mut Loop<T>, told: &AnswerAsked<'_>)
    requires { IsReady asked.old.stage asked.old.incoming.items (T.free (T.at asked.old.target).state) }
    ensures ready { IsReady asked.new.stage asked.new.incoming.items (T.free (T.at asked.new.target).state) }
    ensures made { (carried : List ℕ) → Carries T.means asked.old.stage (T.at asked.old.target) carried
        → Makes T.means (record {
          asked = operation_of asked.old.stage;
          carried = carried;
          answer = answer_in (told_by told.now);
          came = came_in (told_by told.now);
        })
        (phase_of asked.old.stage) (T.at asked.old.target) asked.old.incoming.items asked.old.clock
        (phase_of asked.new.stage) (T.at asked.new.target) asked.new.incoming.items asked.new.clock }
{
    asked.step(answer_in(told), came_in(told));
}
