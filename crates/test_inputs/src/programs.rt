//! Programs by name, as text: those that the tests of several crates take.

/// A program as text.
pub type Text = &'static str;

/// Ends each block run with R0 = 0, and emits nothing.
pub const RETURNING: Text = "mov r0, 0\nexit";

/// Emits the first 8 bytes of a block where the first is 7.
pub const MATCHING: Text =
    "ldxb r6, [r2+0]\njne r6, 7, +3\nmov r1, r2\nmov r2, 8\ncall 1\nmov r0, 0\nexit";

/// Emits 1 to 8 of a block's bytes, as its first says.
pub const GROWING: Text =
    "ldxb r6, [r2+0]\nand r6, 7\nadd r6, 1\nmov r1, r2\nmov r2, r6\ncall 1\nmov r0, 0\nexit";

/// Adds a block's first byte to a sum in scratch, and ends the run with its third block.
pub const ADDING_THREE: Text = "\
ldxb r4, [r2+0]\nldxdw r5, [r3+0]\nadd r5, r4\nstxdw [r3+0], r5\nldxw r6, [r1+8]\nmov r0, 0\njne r6, 2, +1\nmov r0, 1\n\
exit";
