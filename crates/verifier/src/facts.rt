//! What is known where a slot is reached: at the start, and where ways come together.

ghost use Rattle.std.specs.Prelude.{◌≡◌};
ghost use Rattle.accepted_programs.specs.Cells.{joined_each};
ghost use Rattle.accepted_programs.specs.Facts.{facts_at_start, join_facts};

use crate::cells::join as join_cells;
use crate::sums::join as join_fit;
use accepted_programs::{CELLS, Facts};
use program_interface::{Area, REGISTERS, STACK_BYTES};
use word_domain::Domain;

/// What is known at the start of a block run.
pub(crate) fn at_start<D: Domain>() -> Facts<D>
    ensures { result ≡ facts_at_start D.operations }
{
    let zero = D::constant(0);
    Facts {
        registers: [
            zero,
            D::pointer(Area::Context, 0),
            D::pointer(Area::Block, 0),
            D::pointer(Area::Scratch, 0),
            zero,
            zero,
            zero,
            zero,
            zero,
            zero,
            D::pointer(Area::Stack, STACK_BYTES as u32),
        ],
        cells: [None; CELLS],
        emitted: 0,
        sum: None,
        fit: None,
    }
}

/// Joins what is known of other registers into these.
fn join_registers<D: Domain>(registers: &mut [D; REGISTERS], others: &[D; REGISTERS])
    ensures { registers.new ≡ joined_each D.operations.join registers.old others.now }
{
    for i in 0..REGISTERS {
        let joined = registers[i].join(others[i]);
        registers[i] = joined;
    }
}

/// Joins other facts into some.
pub(crate) fn join<D: Domain>(facts: &mut Facts<D>, other: &Facts<D>)
    ensures { facts.new ≡ join_facts D.operations facts.old other.now }
{
    join_registers(&mut facts.registers, &other.registers);
    join_cells(&mut facts.cells, &other.cells);
    facts.emitted = facts.emitted.max(other.emitted);
    facts.sum = None;
    facts.fit = join_fit::<D>(&facts.fit, &other.fit);
}
