//! A Load of 7 bytes into slot 1, as Linux 6.1 sent it.

/// Its capsule: identifier 0069h, SGLs, namespace 1, an SGL of type 5Ah of 7 bytes, slot 1, EMIT 42h.
pub const LOAD: [u8; 72] = [
    0x04, 0, 72, 0, 72, 0, 0, 0, 0xC1, 0x40, 0x69, 0, 1, 0, 0, 0, 0, 0, 0, 0, 0, 0, 0, 0, 0, 0, 0,
    0, 0, 0, 0, 0, 0, 0, 0, 0, 0, 0, 0, 0, 7, 0, 0, 0, 0, 0, 0, 0x5A, 1, 0, 0, 0, 0x42, 0, 0, 0, 7,
    0, 0, 0, 0, 0, 0, 0, 0, 0, 0, 0, 0, 0, 0, 0,
];

/// Its data in an H2CData: LAST, PLEN 31, PDO 24, CCCID 0069h, TTAG 0, DATAO 0, DATAL 7.
pub const LOAD_DATA: [u8; 31] = [
    0x06, 4, 24, 24, 31, 0, 0, 0, 0x69, 0, 0, 0, 0, 0, 0, 0, 7, 0, 0, 0, 0, 0, 0, 0, 1, 2, 3, 4, 5,
    6, 7,
];
