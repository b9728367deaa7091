//! The most that is read of a file, by what it is: in mebibytes.

/// Of a program: a program that is accepted has 32 KiB, and a larger file's refusal says why.
pub const MOST_OF_PROGRAM: u32 = 16;

/// Of an object that `link` takes, and of a text that is assembled or has lines of words.
pub const MOST_OF_TEXT: u32 = 64;

/// Of a block: one has 16 KiB at most.
pub const MOST_OF_BLOCK: u32 = 1;

/// Of blocks: a namespace has no more.
pub const MOST_OF_BLOCKS: u32 = 256;

/// Of a command file, of what `exec` printed, and of a journal.
pub const MOST_OF_EVENTS: u32 = 1024;
