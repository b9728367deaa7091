//! What a guard that ends a block run leaves in scratch: its number, its slot, and the block's index in the run.

ghost use Rattle.std.specs.Prelude.{ℕ, MatchOption, MatchResult, ◌≡◌, ◌≤ℤ◌, false, min, pos, true};
ghost use Rattle.ebpf_link.specs.Marks.{AreFree, IsLastPlace, IsMarkPlace, IsPlace, LacksPlace, mark_kind, mark_word};

use crate::fault::LinkFault;
use crate::guards::Guard;
use crate::scratch_words::{ScratchWords, WORDS};
use crate::target::MarkRule;

/// The bytes that a guard writes.
pub const MARK_BYTES: usize = 16;

/// The bytes of the stack that guards use: the addresses of the block, of scratch and of the context, and a word of a register.
pub const CELLS_BYTES: usize = 32;

/// Is nothing stored into a word and the next one?
fn is_free(stored: ScratchWords, word: usize) -> bool
    ensures free { result ≡ true → AreFree stored word }
    ensures taken { result ≡ false → AreFree stored word → ⊥ }
{
    if word >= WORDS - 1 {
        return false;
    }
    (stored >> word as u32) & 3 == 0
}

/// Is there a mark's place from a byte on?
fn is_place(stored: ScratchWords, at: usize) -> bool
    ensures place { result ≡ true → IsPlace stored at }
    ensures none { result ≡ false → IsPlace stored at → ⊥ }
{
    if at % 8 != 0 {
        return false;
    }
    is_free(stored, at / 8)
}

/// The last place for a mark.
fn last_place(stored: ScratchWords) -> Option<usize>
    ensures { MatchOption result ((at : ℕ) → IsPlace stored at → ⊥) (λ at. IsLastPlace stored at) }
{
    for back in 1..WORDS {
        let at = 8 * (WORDS - 1 - back);
        if is_place(stored, at) {
            return Some(at);
        }
    }
    None
}

/// Where guards write, if they do.
pub(crate) fn mark_place(marks: MarkRule, stored: ScratchWords) -> Result<Option<usize>, LinkFault>
    ensures { MatchResult result (IsMarkPlace marks stored) (LacksPlace marks stored) }
{
    match marks {
        MarkRule::Silent => Ok(None),
        MarkRule::Found => match last_place(stored) {
            Some(at) => Ok(Some(at)),
            None => Err(LinkFault::NoMark(None)),
        },
        MarkRule::At(at) => {
            if is_place(stored, at) {
                Ok(Some(at))
            } else {
                Err(LinkFault::NoMark(Some(at)))
            }
        }
    }
}

/// The number of a guard's kind, above those of its slot and of itself.
fn mark_kind(guard: Guard) -> i32
    ensures value { result ≡ mark_kind guard }
    ensures low { pos 0 ≤ℤ result }
    ensures high { result ≤ℤ pos 0x40000000 }
{
    match guard {
        Guard::Memory => 0x1000_0000,
        Guard::Emit => 0x2000_0000,
        Guard::Block => 0x3000_0000,
        Guard::Rounds => 0x4000_0000,
    }
}

/// A number, or the most that it may be, as a signed one.
fn at_most(number: usize, most: u16) -> i32
    ensures { result ≡ pos (min number most) }
{
    number.min(usize::from(most)) as i32
}

/// What R0 has where a guard of a kind leads to what writes a mark: the kind's number, the guard's slot and its number.
pub(crate) fn mark_word(guard: Guard, slot: usize, number: usize) -> i32
    ensures { result ≡ mark_word guard slot number }
{
    let slot = at_most(slot, 0xfff);
    let number = at_most(number, 0xffff);
    mark_kind(guard) + slot * 0x1_0000 + number
}
