//! What is known of registers together, after an instruction, along an edge and where ways meet.

ghost use Rattle.std.specs.Prelude.{◌≡◌, false};
ghost use Rattle.std.specs.Option.{option_and_then, option_map_or};
ghost use Rattle.program_meaning.specs.Laws.{changes as instruction_changes};
ghost use Rattle.accepted_programs.specs.Facts.{compared_fit as fit_along, fit_behind as fit_after, greatest as greatest_word, greatest_address as greatest_known_address, made_fit as fit_made, tracked, with_sums};
ghost use Rattle.accepted_programs.specs.Sums.{alters_sum, carried as fit_carried, copied as register_copied, fit_left as fit_stays, fit_of as fit_of_sum, grown as sum_grown, is_added as register_is_added, is_register as source_is, join_fit as fits_joined, made_sum as sum_made, moved_fit as fit_moved, renamed as fit_renamed, shifted as fit_shifted, sum_behind as sum_after, sum_left as sum_stays, with_more as sum_with_more};

use accepted_programs::{Facts, Fit, Sum};
use instruction_set::{Instruction, Operation, Register, Source, Width};
use program_interface::CLEARED_REGISTERS;
use word_domain::Domain;

/// Is the source this register?
#[inline]
pub(crate) fn is_register(register: Register, source: &Source) -> bool
    ensures { result ≡ source_is register source.now }
{
    match *source {
        Source::Register(other) => register == other,
        Source::Immediate(_) => false,
    }
}

/// Does an instruction change this register?
#[inline]
fn changes(instruction: &Instruction, register: Register) -> bool
    ensures { result ≡ instruction_changes instruction.now register }
{
    match *instruction {
        Instruction::Call { .. } => register.index() < CLEARED_REGISTERS,
        _ => instruction.writes(register),
    }
}

// ---- a register that has a sum

/// Does an instruction change the register that was added, if one was?
#[inline]
fn changes_second(instruction: &Instruction, second: Option<Register>) -> bool
    ensures { result ≡ option_map_or (instruction_changes instruction.now) second false }
{
    match second {
        Some(register) => changes(instruction, register),
        None => false,
    }
}

/// Is this register one of those that are added?
#[inline]
fn is_added(register: Register, sum: &Sum) -> bool
    ensures { result ≡ register_is_added register sum.now }
{
    let is_second = match sum.second {
        Some(second) => register == second,
        None => false,
    };
    register == sum.first || is_second
}

/// Does an instruction change one of the registers of a sum?
#[inline]
fn alters(instruction: &Instruction, sum: &Sum) -> bool
    ensures { result ≡ alters_sum (instruction_changes instruction.now) sum.now }
{
    match *instruction {
        Instruction::Call { .. } => {
            changes(instruction, sum.register)
                || changes(instruction, sum.first)
                || changes_second(instruction, sum.second)
        }
        _ => match instruction.destination() {
            Some(dst) => dst == sum.register || is_added(dst, sum),
            None => false,
        },
    }
}

/// Forgets a sum, where an instruction changes one of its registers.
#[inline]
fn forget(instruction: &Instruction, sum: &mut Option<Sum>)
    ensures { sum.new ≡ option_and_then (sum_stays (instruction_changes instruction.now)) sum.old }
{
    let is_altered = match sum {
        Some(known) => alters(instruction, known),
        None => false,
    };
    if is_altered {
        *sum = None;
    }
}

/// After a move from another register.
fn copied(dst: Register, src: Register) -> Option<Sum>
    ensures { result ≡ register_copied dst src }
{
    if dst == src {
        return None;
    }
    Some(Sum {
        register: dst,
        first: src,
        second: None,
        more: 0,
    })
}

/// A sum with one register more, of which it has two at most, or with a number more.
fn with_more(source: Source, sum: &Sum) -> Option<Sum>
    ensures { result ≡ sum_with_more source sum.now }
{
    match source {
        Source::Register(register) => match sum.second {
            None => Some(Sum {
                second: Some(register),
                ..*sum
            }),
            Some(_) => None,
        },
        Source::Immediate(value) => Some(Sum {
            more: sum.more.wrapping_add(Instruction::immediate_word(value)),
            ..*sum
        }),
    }
}

/// After an addition to the register that has the sum, and is no part of it.
#[inline]
fn grown(dst: Register, source: Source, sum: &Sum) -> Option<Sum>
    ensures { result ≡ sum_grown dst source sum.now }
{
    if dst == sum.register && !is_added(dst, sum) && !is_register(dst, &source) {
        with_more(source, sum)
    } else {
        None
    }
}

/// The sum that an instruction makes, if it does.
#[inline]
fn made_sum(instruction: &Instruction, sum: &Option<Sum>) -> Option<Sum>
    ensures { result ≡ sum_made instruction.now sum.now }
{
    match *instruction {
        Instruction::Arithmetic {
            width: Width::Bits64,
            operation: Operation::Move,
            dst,
            source: Source::Register(src),
        } => copied(dst, src),
        Instruction::Arithmetic {
            width: Width::Bits64,
            operation: Operation::Add,
            dst,
            source,
        } => match sum {
            Some(sum) => grown(dst, source, sum),
            None => None,
        },
        _ => None,
    }
}

/// Changes the sum that was known to the one that is known behind an instruction.
#[inline]
fn alter_sum(instruction: &Instruction, sum: &mut Option<Sum>)
    ensures { sum.new ≡ sum_after instruction.now sum.old }
{
    match made_sum(instruction, sum) {
        Some(made) => *sum = Some(made),
        None => forget(instruction, sum),
    }
}

// ---- two registers whose sum is at most a number

/// The same, unless an instruction changes one of the two.
fn fit_left(instruction: &Instruction, fit: Fit) -> Option<Fit>
    ensures { result ≡ fit_stays (instruction_changes instruction.now) fit }
{
    if changes(instruction, fit.first) || changes(instruction, fit.second) {
        None
    } else {
        Some(fit)
    }
}

/// With a register in the place of another, unless it is the other one of the two.
fn renamed(dst: Register, src: Register, fit: Fit) -> Option<Fit>
    ensures { result ≡ fit_renamed dst src fit }
{
    if src == fit.first && dst != fit.second {
        Some(Fit { first: dst, ..fit })
    } else if src == fit.second && dst != fit.first {
        Some(Fit { second: dst, ..fit })
    } else {
        None
    }
}

/// After a move into an argument of emit, R1 or R2.
fn moved(dst: Register, src: Register, fit: Fit) -> Option<Fit>
    ensures { result ≡ fit_moved dst src fit }
{
    if dst == Register::R1 || dst == Register::R2 {
        renamed(dst, src, fit)
    } else {
        None
    }
}

/// The greatest word that a register can have, or a greater one.
#[inline]
fn greatest<D: Domain>(facts: &Facts<D>, register: Register) -> u64
    ensures { result ≡ greatest_word D.operations facts.now register }
{
    facts.get(register).bounds().high
}

/// The greatest address that a register can have, if it is known to have one.
fn greatest_address<D: Domain>(facts: &Facts<D>, register: Register) -> Option<u64>
    ensures { result ≡ greatest_known_address D.operations facts.now register }
{
    match facts.get(register).offsets() {
        Some(_) => Some(greatest(facts, register)),
        None => None,
    }
}

/// After an addition of one of the two to an address that is at most this.
fn carried(high: Option<u64>, dst: Register, src: Register, fit: Fit) -> Option<Fit>
    ensures { result ≡ fit_carried high dst src fit }
{
    let most = fit.most.checked_add(high?)?;
    if dst == src {
        None
    } else {
        renamed(dst, src, Fit { most, ..fit })
    }
}

/// After an addition of a number to one of the two, and not both.
fn shifted(dst: Register, value: i32, fit: Fit) -> Option<Fit>
    ensures { result ≡ fit_shifted dst value fit }
{
    if (dst == fit.first || dst == fit.second) && fit.first != fit.second {
        let more = fit.more.wrapping_sub(Instruction::immediate_word(value));
        Some(Fit { more, ..fit })
    } else {
        None
    }
}

/// What an instruction makes of two registers whose sum is at most a number, if it does.
fn made_fit<D: Domain>(instruction: &Instruction, facts: &Facts<D>, fit: &Fit) -> Option<Fit>
    ensures { result ≡ fit_made D.operations instruction.now facts.now fit.now }
{
    match *instruction {
        Instruction::Arithmetic {
            width: Width::Bits64,
            operation: Operation::Move,
            dst,
            source: Source::Register(src),
        } => moved(dst, src, *fit),
        Instruction::Arithmetic {
            width: Width::Bits64,
            operation: Operation::Add,
            dst,
            source: Source::Register(src),
        } => carried(greatest_address(facts, dst), dst, src, *fit),
        Instruction::Arithmetic {
            width: Width::Bits64,
            operation: Operation::Add,
            dst,
            source: Source::Immediate(value),
        } => shifted(dst, value, *fit),
        _ => None,
    }
}

/// After an instruction: what it makes of the two, or what was known.
fn fit_behind<D: Domain>(instruction: &Instruction, facts: &Facts<D>) -> Option<Fit>
    ensures { result ≡ fit_after D.operations instruction.now facts.now }
{
    let Some(fit) = facts.fit else {
        return None;
    };
    match made_fit(instruction, facts, &fit) {
        Some(made) => Some(made),
        None => fit_left(instruction, fit),
    }
}

/// Changes what was known of two registers whose sum is at most a number to what is known behind an instruction.
// Few programs have such a fact, so the rest of a step is not to make room for it.
#[inline(never)]
fn alter_fit<D: Domain>(instruction: &Instruction, facts: &mut Facts<D>)
    ensures { facts.new ≡ record facts.old { fit = fit_after D.operations instruction.now facts.old } }
{
    let fit = fit_behind(instruction, facts);
    facts.fit = fit;
}

/// Changes what was known of registers together to what is known behind an instruction.
#[inline]
fn alter_known<D: Domain>(instruction: &Instruction, facts: &mut Facts<D>)
    ensures { facts.new ≡ record facts.old { sum = sum_after instruction.now facts.old.sum; fit = fit_after D.operations instruction.now facts.old } }
{
    if facts.fit.is_some() {
        alter_fit(instruction, facts);
    }
    alter_sum(instruction, &mut facts.sum);
}

/// The same where sums are tracked; else nothing is known of registers together.
#[inline]
pub(crate) fn alter_sums<D: Domain>(instruction: &Instruction, facts: &mut Facts<D>)
    ensures { facts.new ≡ with_sums D.operations instruction.now facts.old facts.old }
{
    if D::tracks_sums() {
        alter_known(instruction, facts);
    } else {
        facts.sum = None;
        facts.fit = None;
    }
}

// ---- edges and joins

/// The sum of two registers, which is at most a number.
fn fit_of(most: u64, sum: Sum) -> Option<Fit>
    ensures { result ≡ fit_of_sum most sum sum.second }
{
    Some(Fit {
        first: sum.first,
        second: sum.second?,
        more: sum.more,
        most,
    })
}

/// Along an edge of a compare, behind which these are the facts.
fn told_fit<D: Domain>(dst: Register, source: &Source, facts: &Facts<D>) -> Option<Fit>
    ensures { result ≡ fit_along D.operations dst source.now facts.now facts.now.sum }
{
    let Some(sum) = facts.sum else {
        return facts.fit;
    };
    if sum.register == dst || is_register(sum.register, source) {
        match fit_of(greatest(facts, sum.register), sum) {
            Some(fit) => Some(fit),
            None => facts.fit,
        }
    } else {
        facts.fit
    }
}

/// The same where sums are tracked; else nothing.
#[inline]
pub(crate) fn compared_fit<D: Domain>(
    dst: Register,
    source: &Source,
    facts: &Facts<D>,
) -> Option<Fit>
    ensures { result ≡ tracked D.operations (fit_along D.operations dst source.now facts.now facts.now.sum) }
{
    if D::tracks_sums() {
        told_fit(dst, source, facts)
    } else {
        None
    }
}

/// What is known on both ways.
fn join_fits(fit: Option<Fit>, other: Option<Fit>) -> Option<Fit>
    ensures { result ≡ fits_joined fit other }
{
    let (Some(fit), Some(other)) = (fit, other) else {
        return None;
    };
    if fit.first == other.first && fit.second == other.second && fit.more == other.more {
        Some(Fit {
            most: fit.most.max(other.most),
            ..fit
        })
    } else {
        None
    }
}

/// The same where sums are tracked; else nothing.
#[inline]
pub(crate) fn join<D: Domain>(fit: &Option<Fit>, other: &Option<Fit>) -> Option<Fit>
    ensures { result ≡ tracked D.operations (fits_joined fit.now other.now) }
{
    if D::tracks_sums() {
        join_fits(*fit, *other)
    } else {
        None
    }
}
