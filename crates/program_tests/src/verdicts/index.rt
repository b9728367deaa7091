//! An index into a block, as a filter reads it: a byte that a compare bounds, added to the block's address.

use instruction_set::{Operation, Relation, Size, Width};
use interval_domain::Intervals;
use program_interface::{Area, BlockSize};
use program_meaning::Arithmetic;
use word_domain::Domain;

#[test]
fn an_index_below_a_hundred_stays_within_the_block(rt: HostRuntime) {
    let Some(block) = BlockSize::new(512) else {
        panic!(rt; "512 is a block size");
    };
    let byte = Intervals::loaded(Size::Byte);
    let most = Intervals::constant(99);
    let at_most = Intervals::refine(Width::Bits64, Relation::Greater, false, byte, most, false);
    let Some((index, _)) = at_most else {
        panic!(rt; "a byte may be at most 99");
    };
    let sum = Arithmetic::Binary {
        width: Width::Bits64,
        operation: Operation::Add,
    };
    let address = Intervals::alu(sum, Intervals::pointer(Area::Block, 0), index);
    // the last byte that 512 have is 412 after offset 99
    assert_eq!(rt; address.access(block, 412, 1), Some(Area::Block));
    assert_eq!(rt; address.access(block, 413, 1), None);
}
