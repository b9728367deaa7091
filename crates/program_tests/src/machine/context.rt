//! The context that a program is given, as worked out by hand.

use program_interface::{BlockSize, Context};

#[test]
fn tells_a_program_of_its_block(rt: HostRuntime) {
    let Some(block) = BlockSize::new(512) else {
        panic!(rt; "512 is a block size");
    };
    let context = Context {
        lba: 0x0102_0304_0506_0708,
        index: 9,
        count: 10,
        block,
        argument: 0xA0B0_C0D0,
    };
    let bytes = [
        8, 7, 6, 5, 4, 3, 2, 1, 9, 0, 0, 0, 10, 0, 0, 0, 0, 2, 0, 0, 0xD0, 0xC0, 0xB0, 0xA0, 0, 0,
        0, 0, 0, 0, 0, 0,
    ];
    assert_eq!(rt; context.encode(), bytes);
}
