//! Questions in words: the condition that a person writes, and the text of one that is understood.
//!
//! ```text
//! u32@8 == 3 && !(i16@2 < 0) || price >= arg
//! ```
//!
//! - A field is a type and the offset of its first byte, as `u32@8`, or a name of the layout. The types are `u8`, `u16`, `u32`, `u64`,
//!   `i8`, `i16`, `i32` and `i64`; with `be` after it the highest byte comes first, as in `u32be@0`.
//! - A layout has a name and a field on each line, as `price i32@12`; what is after a `;` is a comment.
//! - A field is compared by `==`, `!=`, `<`, `<=`, `>` or `>=` with a number of its type, with
//!   `arg`, the argument of the run, or with a field that is signed as it is.
//! - `price in 100..200` is `price >= 100 && price < 200`, and `price in 100..=200` is `price >= 100 && price <= 200`.
//!   `region in {1, 2}` is `region == 1 || region == 2`. What is between is of the same kinds as on the right of a comparison.
//! - `bytes@8 == 0x6162` asks for the bytes 61h and 62h from offset 8 on; by `!=` it asks for others. They can be
//!   between quotes, as `bytes@8 == "ab"`, where a quote ends them whatever is before it. `word == "lamp"`, of a field with as many
//!   bytes, asks for them where the field is.
//! - `!` takes what is next to it, `&&` is before `||`, and parentheses are before both.
//! - Numbers are decimal, with a `-` in front where they are below zero, or hexadecimal after `0x`, without a `-`.
#![tactic(auto)]

mod cutting;
mod fault;
mod field;
pub mod laws;
mod layout;
mod layout_text;
mod number;
mod operand;
mod printing;
mod reading;
mod stack;
mod stage;
mod text;
mod within;

pub use fault::{FaultKind, ReadFault, WordFault};
pub use layout::{Layout, NamedField};
pub use layout_text::{LayoutFault, LineKind, read_layout};
pub use printing::text_of;
pub use reading::{MOST_BYTES, read};
