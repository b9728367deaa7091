//! Programs of which more is known over addresses than over intervals, and what is said of them over both.

/// Addresses that are compared and subtracted.
pub(super) const WORDS: &str = "\
0, refused 5 5, accepted 8: ldxb r6, [r2+0] / mov r3, r2 / add r3, r6 / add r2, 200 / jge r3, r2, +1 / ldxb r0, [r3+312] / \
    mov r0, 0 / exit ; after the jump R3 is at most 199 bytes into the block
0, refused 5 5, refused 5 5: ldxb r6, [r2+0] / mov r3, r2 / add r3, r6 / add r2, 200 / jge r3, r2, +1 / ldxb r0, [r3+313] / \
    mov r0, 0 / exit ; 199 + 313 is past the end
0, refused 3 5, accepted 5: add r2, 16 / jgt r2, r10, +1 / exit / ldxdw r0, [r0+0] / exit ; \
    an address of the stack is greater than any of the block
0, refused 3 5, refused 3 5: add r2, 16 / jlt r2, r10, +1 / exit / ldxdw r0, [r0+0] / exit
0, refused 5 5, accepted 7: ldxb r6, [r2+0] / mov r3, r2 / add r3, r6 / sub r3, r2 / add r2, r3 / ldxb r0, [r2+256] / exit ; \
    the difference of two addresses is a number: at most 255
";

/// A record of which the first two bytes tell the offset and the length, which is emitted where their sum passes a test.
pub(super) const RECORDS: &str = "\
258, refused 10 9, accepted 13: ldxb r6, [r2+0] / ldxb r7, [r2+1] / lsh r6, 1 / add r7, 1 / mov r3, r6 / add r3, r7 / \
    jgt r3, 512, +4 / add r2, r6 / mov r1, r2 / mov r2, r7 / call 1 / mov r0, 0 / exit ; the sum is at most the block's bytes
258, refused 10 9, refused 10 9: ldxb r6, [r2+0] / ldxb r7, [r2+1] / lsh r6, 1 / add r7, 1 / mov r3, r6 / add r3, r7 / \
    jgt r3, 513, +4 / add r2, r6 / mov r1, r2 / mov r2, r7 / call 1 / mov r0, 0 / exit ; it may be one more
258, refused 9 9, refused 9 9: ldxb r6, [r2+0] / ldxb r7, [r2+1] / lsh r6, 1 / mov r3, r6 / add r3, r7 / jgt r3, 512, +4 / \
    add r2, r6 / mov r1, r2 / mov r2, r7 / call 1 / mov r0, 0 / exit ; there may be no byte
258, refused 11 9, refused 11 9: ldxb r6, [r2+0] / ldxb r7, [r2+1] / lsh r6, 1 / add r7, 1 / mov r3, r6 / add r3, r7 / \
    jgt r3, 512, +5 / or r7, 1 / add r2, r6 / mov r1, r2 / mov r2, r7 / call 1 / mov r0, 0 / exit ; \
    the length is written after the test
258, refused 12 9, accepted 15: ldxb r6, [r2+0] / ldxb r7, [r2+1] / lsh r6, 1 / add r7, 1 / mov r8, r2 / add r8, 512 / \
    add r2, r6 / mov r3, r2 / add r3, r7 / jgt r3, r8, +3 / mov r1, r2 / mov r2, r7 / call 1 / mov r0, 0 / exit ; \
    the end of the record is an address that is compared with the block's
258, refused 12 8, accepted 15: ldxb r6, [r2+0] / ldxb r7, [r2+1] / lsh r6, 1 / add r7, 1 / mov r3, r6 / add r3, r7 / \
    add r3, 4 / jgt r3, 512, +5 / add r6, 4 / add r2, r6 / mov r1, r2 / mov r2, r7 / call 1 / mov r0, 0 / exit ; \
    the sum has a number more, by which one of the two is moved on after the test
258, refused 14 9, accepted 17: ldxb r6, [r2+0] / ldxb r7, [r2+1] / ldxb r8, [r2+2] / lsh r6, 1 / add r7, 1 / mov r3, r6 / \
    add r3, r7 / jeq r8, 0, +2 / jgt r3, 500, +6 / ja +1 / jgt r3, 512, +4 / add r2, r6 / mov r1, r2 / mov r2, r7 / call 1 / \
    mov r0, 0 / exit ; where two ways meet, the greater of two sums counts
258, refused 14 9, refused 14 9: ldxb r6, [r2+0] / ldxb r7, [r2+1] / ldxb r8, [r2+2] / lsh r6, 1 / add r7, 1 / mov r3, r6 / \
    add r3, r7 / jeq r8, 0, +2 / jgt r3, 500, +6 / ja +1 / jgt r3, 513, +4 / add r2, r6 / mov r1, r2 / mov r2, r7 / call 1 / \
    mov r0, 0 / exit
";
