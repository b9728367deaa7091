//! The examples of RFC 3720, appendix B.4.

use crate::Sums;

/// A command of SCSI, as iSCSI carries it.
const COMMAND: [u8; 48] = [
    0x01, 0xc0, 0x00, 0x00, 0x00, 0x00, 0x00, 0x00, 0x00, 0x00, 0x00, 0x00, 0x00, 0x00, 0x00, 0x00,
    0x14, 0x00, 0x00, 0x00, 0x00, 0x00, 0x04, 0x00, 0x00, 0x00, 0x00, 0x14, 0x00, 0x00, 0x00, 0x18,
    0x28, 0x00, 0x00, 0x00, 0x00, 0x00, 0x00, 0x00, 0x02, 0x00, 0x00, 0x00, 0x00, 0x00, 0x00, 0x00,
];

/// The numbers from 0 on.
const RISING: [u8; 32] = [
    0, 1, 2, 3, 4, 5, 6, 7, 8, 9, 10, 11, 12, 13, 14, 15, 16, 17, 18, 19, 20, 21, 22, 23, 24, 25,
    26, 27, 28, 29, 30, 31,
];

/// The numbers down to 0.
const FALLING: [u8; 32] = [
    31, 30, 29, 28, 27, 26, 25, 24, 23, 22, 21, 20, 19, 18, 17, 16, 15, 14, 13, 12, 11, 10, 9, 8,
    7, 6, 5, 4, 3, 2, 1, 0,
];

#[test]
fn sums_as_in_the_examples(rt: HostRuntime) {
    let sums = Sums::new();
    assert_eq!(rt; sums.sum(&[0; 32]), 0x8a91_36aa);
    assert_eq!(rt; sums.sum(&[0xff; 32]), 0x62a8_ab43);
    assert_eq!(rt; sums.sum(&RISING), 0x46dd_794e);
    assert_eq!(rt; sums.sum(&FALLING), 0x113f_db5c);
    assert_eq!(rt; sums.sum(&COMMAND), 0xd996_3a56);
    let begun = sums.sum(&COMMAND[..7]);
    assert_eq!(rt; sums.extended(begun, &COMMAND[7..]), 0xd996_3a56);
}
