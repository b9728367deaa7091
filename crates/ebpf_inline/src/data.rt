//! Constant data, at the stack's lowest bytes.

ghost use Rattle.std.specs.Prelude.{◌≡◌, ◌≤◌, ◌<◌, ◌++◌, ◌+◌, ◌*◌, IfOk, Some, drop, length, map, nat_le, slice_get, vec_len};
ghost use Rattle.std.specs.Int.{cast_signed, w32};
ghost use Rattle.byteorder.specs.Endian.{little_number};
ghost use Rattle.common_definitions.specs.Gives.{Gives};
ghost use Rattle.ebpf_inline.specs.Data.{all_data, data_begin, data_part, fitting_data, padded_length, padded_section, section_length, store_word};
ghost use Rattle.ebpf_inline.specs.Linked.{hindrance};
ghost use Rattle.program_interface.specs.declared.area.TheConstants.{STACK_BYTES};

use crate::fault::InlineFault;
use crate::unit_fault::UnitFault;
use byteorder::{ByteOrder, LittleEndian};
use instruction_set::{Instruction, Register, Size};
use program_interface::STACK_BYTES;
use std::alloc::{AllocError, Global};

/// The bytes that a section of so many takes of the stack: whole words of 8 bytes.
fn padded_length(count: usize) -> usize
    requires { count ≤ STACK_BYTES }
    ensures { result ≡ padded_length count }
{
    count.div_ceil(8) * 8
}

/// Does a section of so many bytes fit behind so many others?
fn fits(begin: usize, count: usize) -> bool
    requires { begin ≤ STACK_BYTES }
    ensures { result ≡ nat_le (begin + padded_length count) STACK_BYTES }
{
    count <= STACK_BYTES && padded_length(count) <= STACK_BYTES - begin
}

/// One section more, with zeros behind it.
fn push_section(into: &mut Vec<u8>, section: &[u8]) -> Result<(), AllocError>
    requires room { vec_len into.old ≤ STACK_BYTES }
    requires small { length section.now ≤ STACK_BYTES }
    ensures { IfOk result (λ _. into.new.items ≡ into.old.items ++ padded_section section.now) }
{
    let end = into.len() + padded_length(section.len());
    into.extend_from_slice(section)?;
    into.resize(end, 0)
}

/// The bytes of all sections, as they stand in the stack.
pub(crate) fn all_data(alloc: Global, sections: &[Vec<u8>]) -> Result<Vec<u8>, InlineFault>
    ensures exact { Gives hindrance (λ bytes. bytes.items) result (fitting_data (map (λ section. section.items) sections.now)) }
    ensures few { IfOk result (λ bytes. vec_len bytes ≤ STACK_BYTES) }
{
    let mut data = Vec::new(alloc);
    for section in sections {
        if !fits(data.len(), section.len()) {
            return Err(InlineFault::Hindered(UnitFault::TooMuchData));
        }
        push_section(&mut data, section)?;
    }
    Ok(data)
}

/// How many bytes the section with this number has.
fn section_length(sections: &[Vec<u8>], number: usize) -> usize
    requires { number < length sections.now }
    ensures { result ≡ section_length (slice_get (map (λ section. section.items) sections.now) number) }
{
    sections[number].len()
}

/// At which byte of the stack the section with this number begins: behind those before it.
#[tactic(auto, using(crate::proofs::Sections::begin_next, crate::proofs::Sections::begin_fits))]
pub(crate) fn data_begin(sections: &[Vec<u8>], section: usize) -> usize
    requires there { section ≤ length sections.now }
    requires few { length (all_data (map (λ section. section.items) sections.now)) ≤ STACK_BYTES }
    ensures { result ≡ data_begin (map (λ section. section.items) sections.now) section }
{
    let mut begin = 0;
    for number in 0..section {
        begin += padded_length(section_length(sections, number));
    }
    begin
}

/// The number that 4 bytes spell, the lowest first, by their number among all such words.
fn word_at(bytes: &[u8], word: usize) -> i32
    requires few { length bytes.now ≤ STACK_BYTES }
    requires there { 4 * word + 4 ≤ length bytes.now }
    ensures { result ≡ cast_signed w32 (little_number 4 (drop (4 * word) bytes.now)) }
{
    LittleEndian::read_i32(&bytes[4 * word..])
}

/// A store of 4 bytes of the data, by their number among all such words.
fn store_word(bytes: &[u8], word: usize) -> Instruction
    requires few { length bytes.now ≤ STACK_BYTES }
    requires there { 4 * word + 4 ≤ length bytes.now }
    ensures { Some result ≡ store_word bytes.now word }
{
    Instruction::StoreImmediate {
        size: Size::Word,
        dst: Register::FRAME_POINTER,
        offset: (4 * word as i32 - STACK_BYTES as i32) as i16,
        value: word_at(bytes, word),
    }
}

/// Stores of the data.
#[tactic(auto, using(crate::proofs::Sections::one_more))]
pub(crate) fn push_data(into: &mut Vec<Option<Instruction>>, bytes: &[u8]) -> Result<(), AllocError>
    requires { length bytes.now ≤ STACK_BYTES }
    ensures { IfOk result (λ _. into.new.items ≡ into.old.items ++ data_part bytes.now) }
{
    for word in 0..bytes.len() / 4 {
        into.extend_from_slice(&[Some(store_word(bytes, word))])?;
    }
    Ok(())
}
