//! Programs of which any two domains say the same, worked out by hand from the rules.

/// Jumps and ends.
pub(super) const JUMPS: &str = "\
0, accepted 1: exit ; EXIT alone ends the block run
0, accepted 2: mov r0, 0 / exit ; one word into R0
0, accepted 2: ja +0 / exit ; a jump to the next slot
0, refused 0 1: ja -1 / exit ; a jump to itself is no jump forward
0, refused 1 1: mov r0, 0 / ja -2 / exit ; nor is one to the slot before
0, refused 0 1: ja -5 / exit ; backward comes before outside
0, refused 0 1: jeq r0, 0, -1 / exit ; a compare that jumps backward
0, refused 0 2: ja +1 / exit ; the slot after the last is outside
0, refused 0 2: jne r0, 0, +5 / exit ; both edges of a compare are checked, also one that R0 = 0 rules out
0, refused 0 2: jeq r0, 0, +0 ; a target outside comes before falling off
0, refused 0 2: ja +1 / lddw r1, 1 / exit ; the second slot of a wide instruction
0, accepted 3: ja +2 / lddw r1, 1 / exit ; the slot after a wide instruction
0, refused 0 3: mov r0, 0 ; the program ends without EXIT
0, refused 0 3: lddw r0, 1 ; a wide instruction at the end
0, accepted 3: ja +1 / ldxdw r0, [r0+0] / exit ; no edge leads to the load
0, accepted 3: jeq r0, 0, +1 / ldxdw r0, [r0+0] / exit ; R0 is 0, so the jump is always taken
0, accepted 4: jne r0, 0, +1 / exit / ldxdw r0, [r0+0] / exit ; R0 is 0, so the jump is never taken
0, accepted 2: exit / mov r10, 0 ; nothing after EXIT is reached
0, refused 4 5: ldxb r6, [r2+0] / jsgt r6, -1, +2 / mov r0, 0 / exit / ldxdw r0, [r0+0] / exit ; \
    a signed compare rules no edge out, and R0 is no address
0, refused 3 5: ldxb r6, [r2+0] / jgt r6, r6, +1 / exit / ldxdw r0, [r0+0] / exit ; neither does a compare of a register with itself
0, refused 0 1: ja -32768 / exit ; the farthest jumps of 16 bits
0, refused 0 2: ja +32767 / exit
0, refused 0 1: jeq r0, 0, -32768 / exit
0, refused 0 2: jeq r0, 0, +32767 / exit
0, refused 0 1: jaw -2147483648 / exit ; the farthest jumps of 32 bits
0, refused 0 2: jaw +2147483647 / exit
";

/// Writes to the frame pointer.
pub(super) const WRITES: &str = "\
0, refused 0 4: mov r10, 0 / exit ; R10 can't be written
0, refused 0 3: mov r10, 0 ; falling off comes before R10
0, refused 0 4: ldxdw r10, [r0+0] / exit ; R10 comes before the load
0, refused 0 4: neg r10 / exit ; arithmetic writes its destination
0, refused 0 4: le64 r10 / exit ; so does a byte swap that changes nothing
0, refused 0 4: lddw r10, 0 / exit ; so does the wide instruction
0, accepted 2: stxdw [r10-8], r10 / exit ; R10 as the address and the value of a store is only read
";

/// Loads, also at the ends of areas.
pub(super) const LOADS: &str = "\
0, refused 0 5: ldxdw r0, [r0+0] / exit ; R0 is 0, and no address
0, accepted 3: mov r6, r2 / ldxb r0, [r6+0] / exit ; a copy of an address is the address
0, accepted 3: sub r2, 1 / ldxb r0, [r2+1] / exit ; an address may leave its area in between
0, accepted 4: add r2, 1048576 / sub r2, 1048576 / ldxb r0, [r2+0] / exit ; by 2^20 bytes at most
0, refused 2 5: add r2, 1048577 / sub r2, 1048577 / ldxb r0, [r2+0] / exit ; one more, and it is forgotten
0, accepted 5: mov r6, -1 / add r2, r6 / ldxb r0, [r2+1] / mov r0, 0 / exit ; a word over 2^63 counts as negative
0, refused 2 5: mov r6, -1 / add r2, r6 / ldxb r0, [r2+0] / mov r0, 0 / exit ; so this is the byte before the block
0, accepted 4: mov r6, 511 / add r6, r2 / ldxb r0, [r6+0] / exit ; a word and an address, in either order
0, refused 1 5: sub r2, r1 / ldxb r0, [r2+0] / exit ; the difference of two addresses is none
0, refused 1 5: mul r2, 1 / ldxb r0, [r2+0] / exit ; multiplication forgets an address
0, refused 1 5: movw r2, r2 / ldxb r0, [r2+0] / exit ; 32 bits hold no address
0, refused 1 5: le64 r2 / ldxb r0, [r2+0] / exit ; a byte swap forgets an address, also one that changes nothing
0, accepted 4: stxdw [r10-8], r2 / ldxdw r6, [r10-8] / ldxb r0, [r6+0] / exit ; a word of the stack keeps it
0, accepted 2: ldxb r0, [r1+31] / exit ; the context has 32 bytes
0, refused 0 5: ldxb r0, [r1+32] / exit
0, accepted 2: ldxdw r0, [r1+24] / exit
0, refused 0 5: ldxdw r0, [r1+25] / exit
0, refused 0 5: ldxb r0, [r2-1] / exit ; the block has 512
0, accepted 2: ldxb r0, [r2+511] / exit
0, refused 0 5: ldxb r0, [r2+512] / exit
0, accepted 2: ldxdw r0, [r2+504] / exit
0, refused 0 5: ldxdw r0, [r2+505] / exit
0, refused 0 5: ldxb r0, [r2-32768] / exit
0, refused 0 5: ldxb r0, [r2+32767] / exit
0, refused 0 5: ldxb r0, [r3-1] / exit ; scratch has 1024
0, accepted 2: ldxb r0, [r3+1023] / exit
0, refused 0 5: ldxb r0, [r3+1024] / exit
0, refused 0 5: ldxb r0, [r10-513] / exit ; the stack has 512, and R10 is its end
0, accepted 2: ldxb r0, [r10-512] / exit
0, accepted 2: ldxb r0, [r10-1] / exit
0, refused 0 5: ldxb r0, [r10+0] / exit
0, accepted 2: ldxdw r0, [r10-8] / exit
0, refused 0 5: ldxdw r0, [r10-7] / exit
";

/// Stores, also at the ends of areas.
pub(super) const STORES: &str = "\
0, refused 0 6: stxdw [r1+0], r0 / exit ; the context is read alone
0, refused 0 6: stb [r2+0], 1 / exit ; so is the block
0, refused 0 6: stb [r0+0], 1 / exit ; R0 is 0, and no address
0, accepted 2: stxb [r3+1023], r0 / exit
0, refused 0 6: stxb [r3+1024], r0 / exit
0, accepted 2: stw [r3+1020], 1 / exit
0, refused 0 6: stw [r3+1021], 1 / exit
0, accepted 2: stxdw [r3+1016], r0 / exit
0, refused 0 6: stxdw [r3+1017], r0 / exit
0, refused 0 6: stxdw [r10-513], r0 / exit
0, accepted 2: stxdw [r10-512], r0 / exit
0, refused 0 6: stxb [r10+0], r0 / exit
";

/// Emits, also at the ends of areas.
pub(super) const EMITS: &str = "\
0, refused 0 7: call 2 / exit ; there is one helper, number 1
0, refused 0 7: call -1 / exit ; a negative number is none
0, refused 0 9: call 1 / exit ; R2 is the block's address, which bounds no length
3, refused 2 8: mov r1, 0 / mov r2, 1 / call 1 / exit ; R1 is 0, and no address
16, refused 1 8: mov r1, 0 / call 1 / exit ; an address that is none comes before a length that is none
3, refused 2 8: sub r1, 1 / mov r2, 1 / call 1 / exit ; the byte before the context
2, refused 2 9: mov r1, r2 / mov r2, 0 / call 1 / exit ; a record has at least one byte
512, refused 2 9: mov r1, r2 / mov r2, 513 / call 1 / exit ; the block has 512 bytes
512, refused 2 10: mov r1, r2 / mov r2, 512 / call 1 / exit ; with its length the frame has 514 bytes
512, accepted 4: mov r1, r2 / mov r2, 510 / call 1 / exit ; with its length the frame has 512
34, accepted 3: mov r2, 32 / call 1 / exit ; the whole context
35, refused 1 9: mov r2, 33 / call 1 / exit ; one byte more
10, accepted 5: mov r1, r10 / sub r1, 8 / mov r2, 8 / call 1 / exit ; the stack's last 8 bytes
3, refused 2 9: mov r1, r10 / mov r2, 1 / call 1 / exit ; from the stack's end on there is no byte
10, accepted 7: ldxb r6, [r2+0] / jne r6, 7, +3 / mov r1, r2 / mov r2, 8 / call 1 / mov r0, 0 / exit ; 8 bytes, and their length
9, refused 4 10: ldxb r6, [r2+0] / jne r6, 7, +3 / mov r1, r2 / mov r2, 8 / call 1 / mov r0, 0 / exit ; one byte too many
10, accepted 8: mov r6, r2 / mov r1, r6 / mov r2, 3 / call 1 / mov r1, r6 / mov r2, 3 / call 1 / exit ; two frames of 5 bytes
9, refused 6 10: mov r6, r2 / mov r1, r6 / mov r2, 3 / call 1 / mov r1, r6 / mov r2, 3 / call 1 / exit ; \
    the second takes the group over the limit
6, accepted 10: mov r7, r2 / ldxb r6, [r7+0] / jeq r6, 0, +3 / mov r1, r7 / mov r2, 1 / call 1 / mov r1, r7 / mov r2, 1 / \
    call 1 / exit ; one frame or two, of 3 bytes each
5, refused 8 10: mov r7, r2 / ldxb r6, [r7+0] / jeq r6, 0, +3 / mov r1, r7 / mov r2, 1 / call 1 / mov r1, r7 / mov r2, 1 / \
    call 1 / exit ; where two ways meet, the longer group counts
16, accepted 11: ldxb r6, [r2+0] / mov r1, r2 / mov r2, 8 / jne r6, 7, +1 / call 1 / mov r1, r10 / add r1, -8 / mov r2, 4 / \
    call 1 / mov r0, 0 / exit ; a frame of 10 bytes, where the first is 7, and one of 6
15, refused 8 10: ldxb r6, [r2+0] / mov r1, r2 / mov r2, 8 / jne r6, 7, +1 / call 1 / mov r1, r10 / add r1, -8 / mov r2, 4 / \
    call 1 / mov r0, 0 / exit ; both are longer than the group may be
3, refused 3 5: mov r1, r2 / mov r2, 1 / call 1 / ldxb r0, [r3+0] / exit ; a call leaves 0 in R0 to R5
3, accepted 5: mov r1, r3 / add r1, 1023 / mov r2, 1 / call 1 / exit ; the last byte of scratch
3, refused 3 9: mov r1, r3 / add r1, 1024 / mov r2, 1 / call 1 / exit ; \
    scratch's end is an address of it, from which on there is no byte
3, refused 3 8: mov r1, r3 / add r1, 1025 / mov r2, 1 / call 1 / exit ; an address past the end is none
512, refused 2 9: mov r1, r2 / mov r2, -1 / call 1 / exit ; the largest length, which would end before the address
";

/// The address of the block, which is kept on the stack over a call.
pub(super) const KEPT: &str = "\
10, accepted 8: stxdw [r10-8], r2 / mov r1, r2 / mov r2, 8 / call 1 / ldxdw r2, [r10-8] / ldxb r0, [r2+511] / mov r0, 0 / exit ; \
    the block's address is kept over a call, which leaves R2 0
10, refused 6 5: stxdw [r10-8], r2 / mov r1, r2 / mov r2, 8 / call 1 / stb [r10-1], 0 / ldxdw r2, [r10-8] / ldxb r0, [r2+511] / \
    mov r0, 0 / exit ; a byte of it is overwritten
10, accepted 9: stxdw [r10-8], r2 / mov r1, r2 / mov r2, 8 / call 1 / stb [r10-9], 0 / ldxdw r2, [r10-8] / ldxb r0, [r2+511] / \
    mov r0, 0 / exit ; the byte before it
10, refused 6 5: stxdw [r10-8], r2 / mov r1, r2 / mov r2, 8 / call 1 / stxdw [r10-9], r2 / ldxdw r2, [r10-8] / \
    ldxb r0, [r2+511] / mov r0, 0 / exit ; a word across it and the one before
";
