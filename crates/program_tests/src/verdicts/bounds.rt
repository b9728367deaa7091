//! Programs that compute addresses and lengths, and what is known of these over intervals.

/// Over constants and over intervals.
pub(super) const BOUNDS: &str = "\
0, refused 3 5, accepted 6: ldxh r6, [r2+0] / and r6, 511 / add r2, r6 / ldxb r0, [r2+0] / mov r0, 0 / exit ; \
    AND with 511 gives at most 511
0, refused 3 5, refused 3 5: ldxh r6, [r2+0] / and r6, 511 / add r2, r6 / ldxh r0, [r2+0] / mov r0, 0 / exit ; \
    two bytes from 511 on pass the end
0 of 1024, refused 3 5, accepted 6: ldxh r6, [r2+0] / and r6, 511 / add r2, r6 / ldxh r0, [r2+0] / mov r0, 0 / exit
0, refused 3 5, accepted 6: ldxb r6, [r2+0] / jgt r6, 99, +3 / add r2, r6 / ldxb r0, [r2+412] / mov r0, 0 / exit ; \
    after the jump R6 is at most 99
0, refused 3 5, refused 3 5: ldxb r6, [r2+0] / jgt r6, 99, +3 / add r2, r6 / ldxb r0, [r2+413] / mov r0, 0 / exit ; \
    99 + 413 is past the end
10, refused 5 9, accepted 8: ldxb r6, [r2+0] / and r6, 7 / add r6, 1 / mov r1, r2 / mov r2, r6 / call 1 / mov r0, 0 / exit ; \
    1 to 8 bytes, and their length
9, refused 5 9, refused 5 10: ldxb r6, [r2+0] / and r6, 7 / add r6, 1 / mov r1, r2 / mov r2, r6 / call 1 / mov r0, 0 / exit ; \
    one byte too many
7, accepted 9, refused 6 9: ldxb r6, [r2+0] / mov r3, r2 / add r3, r6 / jne r3, 5, +3 / mov r1, r2 / mov r2, r3 / call 1 / \
    mov r0, 0 / exit ; no compare bounds an address; over constants it is any word, and then 5
";

/// The index of a byte.
pub(super) const INDICES: &str = "\
0, refused 2 5: ldxh r6, [r2+0] / add r2, r6 / ldxb r0, [r2+0] / exit ; two bytes give up to 65535
0, accepted 4: ldxb r6, [r2+0] / add r2, r6 / ldxb r0, [r2+256] / exit ; a byte gives up to 255
0, refused 2 5: ldxb r6, [r2+0] / add r2, r6 / ldxb r0, [r2+257] / exit ; 255 + 257 is past the end
0, refused 2 5: ldxsb r6, [r2+0] / add r2, r6 / ldxb r0, [r2+0] / exit ; a sign-extended byte may be any word
0, accepted 5: ldxdw r6, [r2+0] / andw r6, 511 / add r2, r6 / ldxb r0, [r2+0] / exit ; 32-bit AND of any word
0, refused 3 5: ldxdw r6, [r2+0] / and r6, -1 / add r2, r6 / ldxb r0, [r2+0] / exit ; AND with all bits bounds nothing
0, accepted 5: ldxb r6, [r2+0] / lsh r6, 1 / add r2, r6 / ldxh r0, [r2+0] / exit ; 255 * 2 + 2 = 512
0, refused 3 5: ldxb r6, [r2+0] / lsh r6, 2 / add r2, r6 / ldxb r0, [r2+0] / exit ; 255 * 4 is past the end
0, accepted 5: ldxw r6, [r2+0] / rsh r6, 23 / add r2, r6 / ldxb r0, [r2+0] / exit ; 32 bits without 23 are at most 511
0, refused 3 5: ldxw r6, [r2+0] / rsh r6, 22 / add r2, r6 / ldxb r0, [r2+0] / exit ; without 22, at most 1023
0, accepted 5: ldxw r6, [r2+0] / arsh r6, 23 / add r2, r6 / ldxb r0, [r2+0] / exit ; the same where the sign bit is 0
0, refused 3 5: ldxdw r6, [r2+0] / arsh r6, 55 / add r2, r6 / ldxb r0, [r2+0] / exit ; with an unknown sign, any word
0, accepted 5: ldxw r6, [r2+0] / mod r6, 512 / add r2, r6 / ldxb r0, [r2+0] / exit ; a remainder by 512 is at most 511
0, refused 3 5: ldxw r6, [r2+0] / mod r6, 513 / add r2, r6 / ldxb r0, [r2+0] / exit ; by 513, at most 512
0, accepted 5: ldxb r6, [r2+0] / mod r6, 0 / add r2, r6 / ldxb r0, [r2+256] / exit ; modulo by zero leaves at most 255
0, accepted 5: ldxw r6, [r2+0] / div r6, 8388608 / add r2, r6 / ldxb r0, [r2+0] / exit ; (2^32 - 1) over 2^23 is 511
0, accepted 6: ldxb r6, [r2+0] / ldxw r7, [r1+12] / div r6, r7 / add r2, r6 / ldxb r0, [r2+256] / exit ; \
    by any number, which may be zero
0, accepted 5: ldxb r6, [r2+0] / div r6, 0 / add r2, r6 / ldxb r0, [r2+511] / exit ; a division by zero gives 0
0, accepted 5: ldxb r6, [r2+0] / sdiv r6, 2 / add r2, r6 / ldxb r0, [r2+384] / exit ; half of 255 is 127, with a sign or not
0, refused 3 5: ldxb r6, [r2+0] / sdiv r6, -2 / add r2, r6 / ldxb r0, [r2+0] / exit ; a negative divisor bounds nothing
0, accepted 5: ldxb r6, [r2+0] / mul r6, 2 / add r2, r6 / ldxh r0, [r2+0] / exit ; 255 * 2 + 2 = 512
0, refused 3 5: ldxb r6, [r2+0] / xor r6, 1 / add r2, r6 / ldxb r0, [r2+0] / exit ; XOR bounds nothing
0, accepted 6: ldxb r6, [r2+0] / or r6, 1 / and r6, 255 / add r2, r6 / ldxb r0, [r2+0] / exit ; \
    neither does OR, but AND after it does
0, refused 3 5: ldxb r6, [r2+0] / neg r6 / add r2, r6 / ldxb r0, [r2+0] / exit ; neither does negation
0, refused 3 5: ldxb r6, [r2+0] / movsx8 r6, r6 / add r2, r6 / ldxb r0, [r2+0] / exit ; 128 to 255 become negative
0, accepted 6: ldxb r6, [r2+0] / and r6, 127 / movsx8 r6, r6 / add r2, r6 / ldxb r0, [r2+0] / exit ; 0 to 127 stay
0, accepted 6: ldxdw r6, [r2+0] / le16 r6 / rsh r6, 7 / add r2, r6 / ldxb r0, [r2+0] / exit ; 16 bits without 7 are at most 511
0, refused 3 5: ldxb r6, [r2+0] / sub r6, 1 / add r2, r6 / ldxb r0, [r2+0] / exit ; 0 - 1 wraps
0, accepted 6: ldxb r6, [r2+0] / add r6, 5 / sub r6, 5 / add r2, r6 / ldxb r0, [r2+0] / exit ; 5 to 260 less 5 can't
0, refused 3 5: ldxb r6, [r2+0] / addw r6, -1 / add r2, r6 / ldxb r0, [r2+0] / exit ; \
    at 32 bits all but the least of these sums wrap: any number of 32 bits
0, accepted 5: mov r6, 1 / sub r6, 2 / add r2, r6 / ldxb r0, [r2+1] / exit ; 1 - 2 = -1, since both are known
0, accepted 8: ldxb r1, [r2+0] / lsh r1, 2 / add r3, r1 / ldxw r1, [r3+0] / addw r1, 1 / stxw [r3+0], r1 / mov r0, 0 / exit ; \
    256 counts of 4 bytes fill scratch
0, accepted 6: lddw r6, 0x10000000000 / le64 r6 / rsh r6, 40 / add r2, r6 / ldxb r0, [r2-1] / exit ; \
    a byte swap of a known word takes all of its 64 bits
";

/// Sums that wrap.
pub(super) const SUMS: &str = "\
0, accepted 5: lddw r6, 0xfffffffffff00000 / add r2, r6 / add r2, 1048576 / ldxb r0, [r2+0] / exit ; \
    2^20 bytes back, and forth again
0, refused 4 5: lddw r6, 0xffffffffffefffff / add r2, r6 / add r2, 1048577 / ldxb r0, [r2+0] / exit ; \
    one more, and the address is forgotten
0, refused 4 5: lddw r6, 0x8000000000000000 / add r2, r6 / add r2, r6 / ldxb r0, [r2+0] / exit ; \
    twice 2^63 is 0, but an address is forgotten in between
0, accepted 4: mov r6, -1 / sub r2, r6 / ldxb r0, [r2-1] / exit ; an address less -1 is the next
0, refused 2 5: mov r6, -1 / sub r2, r6 / ldxb r0, [r2+511] / exit
0, accepted 5: ldxb r6, [r2+0] / sub r6, 256 / add r2, r6 / ldxb r0, [r2+256] / exit ; \
    0 to 255 less 256 is below 0 throughout: -256 to -1
0, refused 3 5: ldxb r6, [r2+0] / sub r6, 256 / add r2, r6 / ldxb r0, [r2+255] / exit
0, accepted 6: ldxb r6, [r2+0] / sub r6, 256 / add r6, 256 / add r2, r6 / ldxb r0, [r2+256] / exit ; \
    and 256 more wraps throughout: 0 to 255 again
0, refused 4 5: ldxb r6, [r2+0] / sub r6, 256 / add r6, 255 / add r2, r6 / ldxb r0, [r2+256] / exit ; \
    of 255 more all but the least wrap
";

/// Ways that part and meet.
pub(super) const WAYS: &str = "\
0, accepted 6: ldxb r6, [r2+0] / jlt r6, 100, +1 / exit / add r2, r6 / ldxb r0, [r2+412] / exit ; \
    where the jump leads R6 is below 100
0, accepted 5: ldxw r6, [r2+0] / jne r6, 5, +2 / add r2, r6 / ldxb r0, [r2+506] / exit ; after the jump R6 is 5
0, accepted 6: ldxb r6, [r2+0] / jeq r6, 0, +3 / sub r6, 1 / add r2, r6 / ldxb r0, [r2+257] / exit ; after the jump R6 is 1 to 255
0, accepted 6: ldxb r6, [r2+0] / ldxw r7, [r2+4] / jne r7, r6, +2 / add r2, r7 / ldxb r0, [r2+256] / exit ; \
    what equals a byte is at most 255
0, accepted 6: mov r6, 100 / ldxb r7, [r2+0] / jlt r6, r7, +2 / add r2, r7 / ldxb r0, [r2+411] / exit ; \
    the source is bounded too: R7 is at most 100
0, accepted 5: ldxw r6, [r2+0] / jgtw r6, 255, +2 / add r2, r6 / ldxb r0, [r2+0] / exit ; a 32-bit compare bounds a word below 2^32
0, refused 3 5: ldxdw r6, [r2+0] / jgtw r6, 255, +2 / add r2, r6 / ldxb r0, [r2+0] / exit ; but not one that may be greater
0, refused 3 5: ldxw r6, [r2+0] / jset r6, -256, +2 / add r2, r6 / ldxb r0, [r2+0] / exit ; \
    a test of bits bounds nothing, though it could
0, refused 3 5: ldxw r6, [r2+0] / jsgt r6, 255, +2 / add r2, r6 / ldxb r0, [r2+0] / exit ; neither does a signed compare
0, accepted 5: ldxb r6, [r2+0] / jlt r6, 0, +1 / exit / ldxdw r0, [r0+0] / exit ; no word is below 0, so there is no such edge
0, refused 3 5: ldxb r6, [r2+0] / jeq r6, 0, +1 / mov r2, r1 / ldxb r0, [r2+0] / exit ; \
    R2 is an address of the block or of the context: neither is known
0, accepted 5: ldxb r6, [r2+0] / jeq r6, 0, +1 / add r2, 8 / ldxb r0, [r2+503] / exit ; R2 is 0 to 8 bytes into the block
0, refused 3 5: ldxb r6, [r2+0] / jeq r6, 0, +1 / add r2, 8 / ldxb r0, [r2+504] / exit ; one byte further
";

/// Numbers and addresses that are kept on the stack.
pub(super) const KEPT: &str = "\
0, accepted 6: ldxb r6, [r2+0] / stxdw [r10-512], r6 / ldxdw r7, [r10-512] / add r2, r7 / ldxb r0, [r2+256] / exit ; \
    a number keeps its bounds
0, accepted 6: mov r6, r10 / add r6, -16 / stxdw [r6+8], r2 / ldxdw r1, [r10-8] / ldxb r0, [r1+511] / exit ; \
    the same word by another address
0, refused 2 5: stxw [r10-8], r2 / ldxdw r1, [r10-8] / ldxb r0, [r1+0] / exit ; half of the address
0, refused 3 5: mov r0, r2 / stxdw [r10-8], r0 / ldxdw r1, [r10-8] / ldxb r0, [r1+0] / exit ; R0 isn't kept
0, refused 2 5: stxdw [r10-8], r10 / ldxdw r1, [r10-8] / ldxb r0, [r1-8] / exit ; nor is R10
0, refused 3 5: stdw [r10-8], 0 / ldxdw r6, [r10-8] / add r2, r6 / ldxb r0, [r2+0] / exit ; nor an immediate
0, refused 2 5: stxdw [r3+504], r2 / ldxdw r1, [r10-8] / ldxb r0, [r1+0] / exit ; scratch keeps nothing
0, refused 2 5: stxdw [r3+504], r2 / ldxdw r1, [r3+504] / ldxb r0, [r1+0] / exit
0, accepted 5: stxdw [r10-8], r2 / stxdw [r3+504], r0 / ldxdw r1, [r10-8] / ldxb r0, [r1+0] / exit ; \
    a store to scratch leaves what the stack keeps
0, accepted 8: stxdw [r10-264], r2 / ldxb r6, [r2+0] / mov r7, r10 / add r7, r6 / stb [r7-256], 0 / ldxdw r1, [r10-264] / \
    ldxb r0, [r1+0] / exit ; one byte of 256 is overwritten: the word before them stays
0, refused 6 5: stxdw [r10-256], r2 / ldxb r6, [r2+0] / mov r7, r10 / add r7, r6 / stb [r7-256], 0 / ldxdw r1, [r10-256] / \
    ldxb r0, [r1+0] / exit ; the first of their words, and the last
0, refused 6 5: stxdw [r10-8], r2 / ldxb r6, [r2+0] / mov r7, r10 / add r7, r6 / stb [r7-256], 0 / ldxdw r1, [r10-8] / \
    ldxb r0, [r1+0] / exit
0, refused 2 5: stxdw [r10-8], r2 / ldxdw r1, [r10-16] / ldxb r0, [r1+0] / exit ; another word
0, refused 3 5: stxdw [r10-8], r2 / stxdw [r10-16], r2 / ldxdw r1, [r10-12] / ldxb r0, [r1+0] / exit ; half of it and of another
0, refused 2 5: stxdw [r10-8], r2 / ldxw r1, [r10-8] / ldxb r0, [r1+0] / exit ; four of its bytes
0, accepted 10: ldxb r6, [r2+0] / jeq r6, 7, other / stxdw [r10-8], r2 / ja both / other: mov r7, r2 / add r7, 8 / \
    stxdw [r10-8], r7 / both: ldxdw r1, [r10-8] / ldxb r0, [r1+503] / exit ; \
    each of two ways keeps an address in the word: the block's first byte or its ninth
0, refused 8 5: ldxb r6, [r2+0] / jeq r6, 7, other / stxdw [r10-8], r2 / ja both / other: mov r7, r2 / add r7, 8 / \
    stxdw [r10-8], r7 / both: ldxdw r1, [r10-8] / ldxb r0, [r1+504] / exit ; from the ninth there are 504
0, refused 4 5: ldxb r6, [r2+0] / jeq r6, 7, both / stxdw [r10-8], r2 / both: ldxdw r1, [r10-8] / ldxb r0, [r1+0] / exit ; \
    one way keeps none
";
