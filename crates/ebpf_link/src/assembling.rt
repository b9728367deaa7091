//! Pieces as slots: what computes nothing that is read is left out, and jumps get their distances.

ghost use Rattle.std.specs.Prelude.{◌≡◌, ◌++◌, IfOk, OnOk, length, pos, slice_get, unwrap_or};
ghost use Rattle.ebpf_link.specs.Assembling.{by_distance, mark_words, slots_of, told_word};

use crate::fault::{LinkFault, Widest};
use crate::guards::{Guard, GuardPlace};
use crate::labels::{guard_of, label_count};
use crate::layout::{LaidGuard, Layout};
use crate::lists::{number_at, set_number};
use crate::liveness::{ALL, Registers, at, before, bit, reads, writes};
use crate::marks::mark_word;
use crate::pieces::{Piece, compute};
use instruction_set::{Instruction, Operation, Register, Source};
use program_interface::MOST_SLOTS;
use std::alloc::{AllocError, Global};

/// A program without loops.
#[derive(Drop)]
pub struct Linked {
    /// Its slots.
    pub slots: Vec<Option<Instruction>>,
    /// The slot that each was made of, or put in front of, of those that were given.
    pub origins: Vec<usize>,
    /// How many compares of guards of each kind were put in.
    pub compares: [usize; Guard::COUNT],
    /// The guards, in the order of their numbers, which begin at 1.
    pub guards: Vec<LinkedGuard>,
    /// The byte of scratch from which on a guard writes that ends a block run, if guards do.
    pub mark: Option<usize>,
    /// The loops that weren't laid out to their ends.
    pub cuts: Vec<Cut>,
}

/// A guard of a program.
#[derive(Clone, Copy)]
pub struct LinkedGuard {
    /// The first slot of the program at which it compares.
    pub slot: usize,
    /// What it is in front of, of the slots that were given, and what must hold.
    pub place: GuardPlace,
}

/// A loop that is laid out no further than so many rounds.
#[derive(Clone, Copy)]
pub struct Cut {
    /// The slot of the jump back, of those that were given.
    pub back: usize,
    /// How many rounds are laid out.
    pub rounds: usize,
}

/// Does an instruction nothing else than to write its destination?
fn only_writes(instruction: &Instruction) -> bool {
    match *instruction {
        Instruction::LoadImmediate { .. }
        | Instruction::Load { .. }
        | Instruction::LoadSigned { .. }
        | Instruction::Arithmetic { .. }
        | Instruction::Negate { .. }
        | Instruction::MoveSigned { .. }
        | Instruction::SwapBytes { .. } => true,
        _ => false,
    }
}

/// The registers that are read from a piece on, and whether it stays, by what is read behind it.
fn piece_before(piece: &Piece, behind: Registers, live: &mut [Registers]) -> (Registers, bool) {
    match piece {
        Piece::Begins(slot) => {
            if let Some(found) = live.get_mut(*slot) {
                *found = behind;
            }
            (behind, false)
        }
        Piece::Plain(Instruction::Exit) => (bit(Register::R0), true),
        Piece::Told(_) => (behind & (ALL ^ bit(Register::R0)), true),
        Piece::Plain(instruction) => {
            if only_writes(instruction) && writes(instruction) & behind == 0 {
                return (behind, false);
            }
            (before(instruction, behind), true)
        }
        Piece::Jump(instruction, to) => {
            let there = at(live, *to);
            if matches!(instruction, Instruction::Jump { .. }) {
                return (there, true);
            }
            (behind | there | reads(instruction), true)
        }
    }
}

/// How many slots a piece takes that stays.
fn slots_taken(piece: &Piece) -> usize {
    match piece {
        Piece::Plain(instruction) => instruction.slots(),
        _ => 1,
    }
}

/// How many slots each piece takes: none, where it is left out.
fn sizes(alloc: Global, pieces: &[Piece], slots: usize) -> Result<Vec<usize>, AllocError> {
    let mut live = vec![in alloc; 0; slots]?;
    let mut sizes = vec![in alloc; 0; pieces.len()]?;
    let mut behind = 0;
    for back in 0..pieces.len() {
        let place = pieces.len() - 1 - back;
        let (read, stays) = piece_before(&pieces[place], behind, &mut live);
        behind = read;
        if stays {
            set_number(&mut sizes, place, slots_taken(&pieces[place]));
        }
    }
    Ok(sizes)
}

/// The distance from a slot to another one.
fn distance(from: usize, to: usize) -> i16 {
    let from = from.min(MOST_SLOTS) as i32;
    let to = to.min(MOST_SLOTS) as i32;
    (to - from - 1).max(0) as i16
}

/// The same jump by another distance.
fn by_distance(instruction: Instruction, slots: i16) -> Instruction
    ensures { result ≡ by_distance instruction slots }
{
    match instruction {
        Instruction::Branch {
            width,
            relation,
            dst,
            source,
            ..
        } => Instruction::Branch {
            width,
            relation,
            dst,
            source,
            distance: slots,
        },
        _ => Instruction::Jump { distance: slots },
    }
}

/// The distances of jumps, by their pieces.
fn distances(
    alloc: Global,
    pieces: &[Piece],
    sizes: &[usize],
    slots: usize,
    count: usize,
) -> Result<Vec<i16>, AllocError> {
    let mut begins = vec![in alloc; 0; slots]?;
    let mut all = vec![in alloc; 0; pieces.len()]?;
    let mut behind = count;
    for back in 0..pieces.len() {
        let place = pieces.len() - 1 - back;
        let here = behind.saturating_sub(number_at(sizes, place));
        match &pieces[place] {
            Piece::Begins(slot) => set_number(&mut begins, *slot, here),
            Piece::Jump(_, to) => {
                if let Some(found) = all.get_mut(place) {
                    *found = distance(here, number_at(&begins, *to));
                }
            }
            Piece::Plain(_) | Piece::Told(_) => {}
        }
        behind = here;
    }
    Ok(all)
}

/// How many slots all pieces take.
fn count(sizes: &[usize]) -> usize {
    let mut count: usize = 0;
    for size in sizes {
        count = count.saturating_add(*size);
    }
    count
}

/// What R0 gets where the guard at a place leads.
fn word_at(words: &[i32], place: usize) -> i32
    ensures { result ≡ unwrap_or (slice_get words.now place) (pos 0) }
{
    match words.get(place) {
        Some(word) => *word,
        None => 0,
    }
}

/// Adds the slots of a piece that stays.
fn push_piece(
    slots: &mut Vec<Option<Instruction>>,
    piece: &Piece,
    distance: i16,
    words: &[i32],
) -> Result<(), AllocError>
    ensures { OnOk result (slots.new.items ≡ slots.old.items ++ slots_of piece.now distance words.now) }
{
    match piece {
        Piece::Begins(_) => Ok(()),
        Piece::Told(place) => {
            let word = word_at(words, *place);
            slots.extend_from_slice(&[Some(compute(
                Operation::Move,
                Register::R0,
                Source::Immediate(word),
            ))])
        }
        Piece::Jump(instruction, _) => {
            slots.extend_from_slice(&[Some(by_distance(*instruction, distance))])
        }
        Piece::Plain(instruction) => {
            slots.extend_from_slice(&[Some(*instruction)])?;
            if instruction.slots() == 2 {
                slots.extend_from_slice(&[None])?;
            }
            Ok(())
        }
    }
}

/// Sizes without the stores of addresses that nothing loads.
fn without_idle_stores(layout: &Layout<'_>, sizes: &mut [usize]) {
    if layout.own > 488 {
        return;
    }
    if !layout.uses_block {
        set_number(sizes, 0, 0);
    }
    if !layout.uses_scratch {
        set_number(sizes, 1, 0);
    }
    if layout.has_marks() && !layout.uses_context {
        set_number(sizes, 2, 0);
    }
}

/// The slot that begins at a piece, if one does; else the one before.
fn begun(piece: &Piece, before: usize, slots: usize) -> usize {
    match piece {
        Piece::Begins(slot) if *slot < slots => *slot,
        _ => before,
    }
}

/// The slot that each slot of the program was made of, or put in front of.
fn origins(alloc: Global, layout: &Layout<'_>, sizes: &[usize]) -> Result<Vec<usize>, AllocError> {
    let mut origins = Vec::new(alloc);
    let mut slot = 0;
    for (place, piece) in layout.pieces.iter().enumerate() {
        slot = begun(piece, slot, layout.slots.len());
        let origin = number_at(layout.origins, slot);
        match number_at(sizes, place) {
            0 => {}
            1 => origins.extend_from_slice(&[origin])?,
            _ => origins.extend_from_slice(&[origin, origin])?,
        }
    }
    Ok(origins)
}

/// How many slots are of each loop that is in no other, by its first slot.
fn loop_sizes(
    alloc: Global,
    layout: &Layout<'_>,
    sizes: &[usize],
) -> Result<Vec<usize>, AllocError> {
    let mut counts = vec![in alloc; 0; layout.slots.len()]?;
    let mut slot = 0;
    for (place, piece) in layout.pieces.iter().enumerate() {
        slot = begun(piece, slot, layout.slots.len());
        if let Some(first) = layout.loops.outermost(slot) {
            let count = number_at(&counts, first).saturating_add(number_at(sizes, place));
            set_number(&mut counts, first, count);
        }
    }
    Ok(counts)
}

/// The place of the greatest number of a list, where that isn't 0.
fn greatest(list: &[usize]) -> Option<usize> {
    let mut greatest = None;
    let mut most = 0;
    for (place, number) in list.iter().enumerate() {
        if *number > most {
            most = *number;
            greatest = Some(place);
        }
    }
    greatest
}

/// What is told of a program of so many slots: the loop that most of them are of.
fn too_long(
    alloc: Global,
    layout: &Layout<'_>,
    sizes: &[usize],
    count: usize,
) -> Result<LinkFault, AllocError> {
    let counts = loop_sizes(alloc, layout, sizes)?;
    let widest = match greatest(&counts) {
        Some(first) => Some(Widest {
            back: layout.back(first),
            rounds: number_at(&layout.rounds, first),
            slots: number_at(&counts, first),
        }),
        None => None,
    };
    Ok(LinkFault::TooLong { count, widest })
}

/// The guards, and how many compares of each kind there are.
#[derive(Drop)]
struct Guards {
    guards: Vec<LinkedGuard>,
    compares: [usize; Guard::COUNT],
}

/// Counts a compare at a slot of the program that leads to a guard's end.
fn count_compare(all: &mut Guards, guard: Guard, place: usize, slot: usize) {
    let index = guard.index();
    if index < Guard::COUNT {
        all.compares[index] = all.compares[index].saturating_add(1);
    }
    if let Some(found) = all.guards.get_mut(place) {
        found.slot = slot.min(found.slot);
    }
}

/// The guards, of which none compares at a slot of the program yet.
fn unplaced(
    alloc: Global,
    laid: &[LaidGuard],
    origins: &[usize],
) -> Result<Vec<LinkedGuard>, AllocError> {
    let mut guards = Vec::new(alloc);
    for laid in laid {
        let slot = number_at(origins, laid.place.slot);
        let need = laid.place.need;
        guards.extend_from_slice(&[LinkedGuard {
            slot: MOST_SLOTS,
            place: GuardPlace { slot, need },
        }])?;
    }
    Ok(guards)
}

/// Counts the compares of guards, and says where each compares first.
fn count_compares(all: &mut Guards, layout: &Layout<'_>, sizes: &[usize]) {
    let mut slot: usize = 0;
    for (place, piece) in layout.pieces.iter().enumerate() {
        if let Piece::Jump(_, to) = piece {
            if let Some(found) = guard_of(layout.slots, *to) {
                if let Some(laid) = layout.guards.get(found) {
                    count_compare(all, laid.guard, found, slot);
                }
            }
        }
        slot = slot.saturating_add(number_at(sizes, place));
    }
}

/// The guards of a program, and where each compares first.
fn guards_of(alloc: Global, layout: &Layout<'_>, sizes: &[usize]) -> Result<Guards, AllocError> {
    let mut all = Guards {
        guards: unplaced(alloc, &layout.guards, layout.origins)?,
        compares: [0; Guard::COUNT],
    };
    count_compares(&mut all, layout, sizes);
    Ok(all)
}

/// What R0 has where each guard leads to what writes a mark.
fn mark_words(
    alloc: Global,
    layout: &Layout<'_>,
    guards: &[LinkedGuard],
) -> Result<Vec<i32>, AllocError>
    ensures { IfOk result (λ words. words.items ≡ mark_words layout.now.guards.items guards.now (length guards.now)) }
{
    let mut words = Vec::new(alloc);
    for (place, found) in guards.iter().enumerate() {
        words.push(word_of(&layout.guards, place, found.slot))?;
    }
    Ok(words)
}

/// What R0 has where the guard at a place, which compares first at a slot of the program, leads to what writes a mark.
fn word_of(guards: &[LaidGuard], place: usize, slot: usize) -> i32
    ensures { result ≡ told_word guards.now place slot }
{
    match guards.get(place) {
        Some(laid) => mark_word(laid.guard, slot, place.saturating_add(1)),
        None => 0,
    }
}

/// The slots of pieces that stay.
fn slots_of(
    alloc: Global,
    pieces: &[Piece],
    sizes: &[usize],
    distances: &[i16],
    words: &[i32],
) -> Result<Vec<Option<Instruction>>, AllocError> {
    let mut slots = Vec::new(alloc);
    for (place, piece) in pieces.iter().enumerate() {
        if number_at(sizes, place) > 0 {
            let distance = match distances.get(place) {
                Some(found) => *found,
                None => 0,
            };
            push_piece(&mut slots, piece, distance, words)?;
        }
    }
    Ok(slots)
}

/// The program of the pieces that were laid out.
pub(crate) fn assembled(alloc: Global, layout: &Layout<'_>) -> Result<Linked, LinkFault> {
    let all = label_count(layout.slots, layout.guards.len());
    let mut sizes = sizes(alloc, &layout.pieces, all)?;
    without_idle_stores(layout, &mut sizes);
    let count = count(&sizes);
    if count > MOST_SLOTS {
        return Err(too_long(alloc, layout, &sizes, count)?);
    }
    Ok(of_sizes(alloc, layout, &sizes, all, count)?)
}

/// The program of the pieces that were laid out, which take so many slots each and `count` in all.
fn of_sizes(
    alloc: Global,
    layout: &Layout<'_>,
    sizes: &[usize],
    all: usize,
    count: usize,
) -> Result<Linked, AllocError> {
    let Guards { guards, compares } = guards_of(alloc, layout, sizes)?;
    let distances = distances(alloc, &layout.pieces, sizes, all, count)?;
    let words = mark_words(alloc, layout, &guards)?;
    Ok(Linked {
        slots: slots_of(alloc, &layout.pieces, sizes, &distances, &words)?,
        origins: origins(alloc, layout, sizes)?,
        compares,
        guards,
        mark: layout.mark,
        cuts: layout.cuts(alloc)?,
    })
}
