//! A domain.

ghost use Rattle.std.specs.Prelude.{◌≡◌, ◌<◌, ◌^◌, ℕ};
ghost use Rattle.std.specs.Align.{type_align};
ghost use Rattle.std.specs.Mem.{type_size};
ghost use Rattle.word_domain.specs.Domain.{Operations, IsSound};

use crate::bounds::Bounds;
use crate::offsets::Offsets;
use instruction_set::{Relation, SignedSize, Size, Width};
use program_interface::{Area, BlockSize};
use program_meaning::Arithmetic;

/// A fact about a word, in a register or on the stack: a set of words to which it belongs.
pub trait Domain: Copy {
    /// The values that are facts: all that the operations give. A type may have others.
    ghost is_fact: { Self → Type 0 };

    /// The words that belong to a fact.
    ghost contains: { Self → ℕ → Type 0 };

    /// What the operations give.
    ghost operations: { Operations Self };

    /// A fact takes fewer than 2^32 bytes, and is aligned to fewer: so rows of facts, of registers or of cells of the
    /// stack, fit in memory. A proof about such rows calls this, which has no code.
    fn fact_fits()
        ensures size { type_size Self.row < 2 ^ 32 }
        ensures align { type_align Self.row < 2 ^ 32 };

    /// The operations are sound: of the words below 2^64, those that belong to a fact before an instruction belong to
    /// what the operation gives after it. A proof about every domain calls this, which has no code.
    fn sound()
        ensures { IsSound is_fact contains operations };

    /// One word.
    fn constant(word: u64) -> Self
        ensures { result ≡ operations.constant word };

    /// Every word.
    fn any() -> Self
        ensures { result ≡ operations.any };

    /// The address `offset` bytes into an area.
    fn pointer(area: Area, offset: u32) -> Self
        ensures { result ≡ operations.pointer area offset };

    /// What a load of this size can give, zero-extended (RFC 9669, 5.1).
    fn loaded(size: Size) -> Self
        ensures { result ≡ operations.loaded size };

    /// What a load of this size can give, sign-extended (RFC 9669, 5.2).
    fn loaded_signed(size: SignedSize) -> Self
        ensures { result ≡ operations.loaded_signed size };

    /// What belongs to either.
    fn join(self, other: Self) -> Self
        ensures { result ≡ operations.join self other };

    /// What an arithmetic instruction makes of its destination and its source (RFC 9669, 4.1 and
    /// 4.2). Where it takes one of them alone, any fact that a word
    /// belongs to may stand for the other.
    fn alu(arithmetic: Arithmetic, dst: Self, source: Self) -> Self
        ensures { result ≡ operations.alu arithmetic dst source };

    /// The destination and the source along an edge of a compare (RFC 9669, 4.3), the one that is
    /// taken or the other; `same` says that both are one register. None where there is no such
    /// edge.
    fn refine(
        width: Width,
        relation: Relation,
        taken: bool,
        dst: Self,
        source: Self,
        same: bool,
    ) -> Option<(Self, Self)>
        ensures { result ≡ operations.refine width relation taken dst source same };

    /// The area, beside a block of this size, that holds all `size` bytes from each address
    /// on that is a word of the fact and the offset. None where no area is known to.
    fn access(self, block: BlockSize, offset: i16, size: u64) -> Option<Area>
        ensures { result ≡ operations.access block self offset size };

    /// The lowest and the greatest word, or wider.
    fn bounds(self) -> Bounds
        ensures { result ≡ operations.bounds self };

    /// The area from whose address each word of the fact is some distance away, and the least and the greatest
    /// distance, or wider. None where that isn't known.
    fn offsets(self) -> Option<Offsets>
        ensures { result ≡ operations.offsets self };

    /// Are sums of registers tracked? They are of use only where `bounds` tells bounds of addresses too: by these and a sum a
    /// record can be known to end inside its area.
    fn tracks_sums() -> bool
        ensures { result ≡ operations.tracks_sums };
}
