//! The orders of the demonstration, and the filter that picks some of them.

use std::alloc::{AllocError, Global};
use std::str;

/// The bytes of a block.
pub(crate) const BLOCK: u32 = 512;

/// The most bytes that the filter emits for a block: a record, and two for its length.
pub(crate) const EMIT: u32 = 66;

/// The region whose orders are picked.
pub(crate) const REGION: u32 = 3;

/// What `make` makes of `examples/filter.c`: of each block whose bytes 8 to 11 are the run's argument it emits the first 64.
pub(crate) const FILTER: &[u8] = b"\
\x61\x11\x14\0\0\0\0\0\x61\x23\x08\0\0\0\0\0\x5e\x13\x03\0\0\0\0\0\xbf\x21\0\0\0\0\0\0\
\xb7\x02\0\0\x40\0\0\0\x85\0\0\0\x01\0\0\0\xb7\0\0\0\0\0\0\0\x95\0\0\0\0\0\0\0";

/// The front of each order's block: its name, its region in four bytes, and what is ordered. Blanks fill the rest.
const ORDERS: &[&[u8]] = &[
    b"order 01\x03\0\0\02 lamps",
    b"order 02\x01\0\0\01 desk",
    b"order 03\x03\0\0\040 nails",
    b"order 04\x02\0\0\05 cups",
];

/// Where the region begins, and what is ordered.
const REGION_AT: usize = 8;

const TEXT_AT: usize = 12;

/// The blocks of the orders.
///
/// # Errors
///
/// Want of memory.
pub(crate) fn blocks(alloc: Global) -> Result<Vec<u8>, AllocError> {
    let mut blocks = Vec::new(alloc);
    for order in ORDERS {
        let blanks = b" ".repeat(alloc, (BLOCK as usize).saturating_sub(order.len()))?;
        blocks.extend_from_slice(order)?;
        blocks.extend_from_slice(blanks.as_slice())?;
    }
    Ok(blocks)
}

/// Adds what an order is: its name, its region and what is ordered.
pub(crate) fn push_order(order: &[u8], out: &mut String) -> Result<(), AllocError> {
    let name = text(order.get(..REGION_AT));
    let region = order.get(REGION_AT).copied().unwrap_or(0);
    let ordered = text(order.get(TEXT_AT..));
    writeln!(out, "{name}, region {region}: {ordered}")
}

/// Bytes as text, without the blanks behind it.
fn text(bytes: Option<&[u8]>) -> &str {
    match bytes {
        Some(bytes) => str::from_utf8(bytes).unwrap_or("").trim_end(),
        None => "",
    }
}
