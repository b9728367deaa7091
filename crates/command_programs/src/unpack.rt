//! The command `unpack`: the records of output blocks.

ghost use Rattle.std.specs.Prelude.{◌≡◌, ◌≢◌, ◌++◌, codes, Ok, IfErr, IfOk, OnOk};
ghost use Rattle.std.specs.Fmt.{decimal};
ghost use Rattle.std.specs.String.{string_bytes};
ghost use Rattle.emit_append.specs.Unpacking.{record_bytes, unpacked};
ghost use Rattle.command_programs.specs.Printed.{PrintsRecords, blocks_file_of, record_lines, record_object, records_document, records_text};
ghost use Rattle.command_programs.specs.steps.Told.{IsToldOfFrame};

use crate::flags::{JSON, JSON_ARGUMENT, is_set};
use crate::printing::print;
use clap::ArgMatches;
use command_files::arguments::{BLOCK_ARGUMENT, BLOCK_OPTION, block_size, number, required};
use command_files::{Failure, Files, MOST_OF_BLOCKS, read};
use command_words::{Argument, Takes, Words};
use emit_append::{BlockSize, FrameRefusal, UnpackFault, unpack as records_of};
use std::alloc::{AllocError, Global};
use std::io::Write;

/// The command's name.
pub const NAME: &str = "unpack";

const FILE: &str = "FILE";

const LONG_ABOUT: &str = "\
Prints the records of a file of output blocks, each in hexadecimal on a line of its own.

Programs emit records, which the device packs into whole blocks: each record is a frame, its length \
in two bytes (the lower one first) and then its bytes. Frames lie from a block's front on, and what \
lies behind the last is zeros. Of a file with a byte that is not so, nothing is printed, and \
`frame refused BYTE` tells the lowest such byte.

With --json one JSON object is printed, on a line: `records`, a list with an object for each record: its `length` in bytes, \
and its `bytes` in hexadecimal.";

const EXAMPLE: &str = "\
Example: a block that begins 0300616263 holds the record 616263.

  zscli unpack blocks.bin --block 512";

/// How the command stands on the command line.
pub static WORDS: Words = Words {
    name: NAME,
    about: "Prints the records of output blocks",
    long_about: LONG_ABOUT,
    example: EXAMPLE,
    arguments: &[
        Argument {
            id: FILE,
            long: "",
            short: None,
            takes: Takes::Place,
            help: "The output blocks",
        },
        BLOCK_ARGUMENT,
        JSON_ARGUMENT,
    ],
    one_of: &[],
};

/// Prints the records of the output blocks that the file's bytes are, in order, each in hexadecimal on a line, or all as one
/// JSON object, and nothing else. It makes no file: each has the bytes that it had. Where another thing than standard output fails,
/// nothing is printed.
///
/// # Errors
///
/// A word is no number or no block size, the file can't be read or is refused, standard output fails, or memory is
/// wanting.
pub fn unpack<'a, F: Files, O: Write>(
    alloc: Global,
    matches: &ArgMatches<'a>,
    files: &mut F,
    out: &mut O,
) -> Result<(), Failure<'a>>
    ensures printed { let bytes = F.contents files.old (blocks_file_of matches.now) in
        OnOk result (PrintsRecords matches.now bytes (O.contents out.old) (O.contents out.new)) }
    ensures quiet { IfErr result (λ failure. failure ≢ Failure.CannotPrint → O.contents out.new ≡ O.contents out.old) }
    ensures made { F.made files.new ≡ F.made files.old }
    ensures contents { F.contents files.new ≡ F.contents files.old }
{
    let block = number(matches, BLOCK_OPTION)?;
    let path = required(matches, FILE);
    let file = read(path, MOST_OF_BLOCKS, files)?;
    let records = records_in(alloc, path, file.as_slice(), block_size(block)?)?;
    let text = text_of(alloc, records.as_slice(), is_set(matches, JSON))?;
    print(text.as_bytes(), out)
}

/// The records in a file of output blocks of this size.
fn records_in<'a>(
    alloc: Global,
    path: &'a str,
    bytes: &[u8],
    block: BlockSize,
) -> Result<Vec<Vec<u8>>, Failure<'a>>
    ensures { IfOk result (λ records. unpacked block bytes.now ≡ Ok (record_bytes records.items)) }
{
    match records_of(alloc, bytes, block) {
        Ok(records) => Ok(records),
        Err(fault) => Err(refused(path, bytes, block, fault)),
    }
}

/// The records, on lines or as a JSON object.
fn text_of(alloc: Global, records: &[Vec<u8>], json: bool) -> Result<String, AllocError>
    ensures { IfOk result (λ text. string_bytes text ≡ records_text json (record_bytes records.now)) }
{
    if json {
        document_of(alloc, records)
    } else {
        lines_of(alloc, records)
    }
}

/// Each record in hexadecimal on a line of its own.
fn lines_of(alloc: Global, records: &[Vec<u8>]) -> Result<String, AllocError>
    ensures { IfOk result (λ text. string_bytes text ≡ record_lines (record_bytes records.now)) }
{
    let mut text = String::new(alloc);
    for record in records {
        text.push_str(hex::encode(alloc, record.as_slice())?.as_str())?;
        text.push_str("\n")?;
    }
    Ok(text)
}

/// The records as one JSON object on a line.
fn document_of(alloc: Global, records: &[Vec<u8>]) -> Result<String, AllocError>
    ensures { IfOk result (λ text. string_bytes text ≡ records_document (record_bytes records.now)) }
{
    let mut text = String::from_str(alloc, "{\"records\":[")?;
    for (number, record) in records.iter().enumerate() {
        if number > 0 {
            text.push_str(",")?;
        }
        text.push_str(object_of(alloc, record.as_slice())?.as_str())?;
    }
    text.push_str("]}\n")?;
    Ok(text)
}

/// A record as a JSON object.
fn object_of(alloc: Global, bytes: &[u8]) -> Result<String, AllocError>
    ensures { IfOk result (λ text. string_bytes text ≡ record_object bytes.now) }
{
    let digits = hex::encode(alloc, bytes)?;
    let mut text = length_field(alloc, bytes.len())?;
    text.push_str(",\"bytes\":\"")?;
    text.push_str(digits.as_str())?;
    text.push_str("\"}")?;
    Ok(text)
}

/// The beginning of the object of a record of so many bytes.
fn length_field(alloc: Global, length: usize) -> Result<String, AllocError>
    ensures { IfOk result (λ text. string_bytes text ≡ codes "{\"length\":" ++ decimal length) }
{
    format!(in alloc; "{{\"length\":{length}")
}

/// What the user is told of a file of these bytes, which are no output blocks of this size: its name, and the byte that
/// is refused.
fn refused<'a>(path: &'a str, bytes: &[u8], block: BlockSize, fault: UnpackFault) -> Failure<'a>
    ensures { IsToldOfFrame path.entry fault result }
{
    match fault {
        UnpackFault::At(byte) => Failure::FrameRefused {
            path,
            refusal: FrameRefusal::of(byte, bytes, block),
        },
        UnpackFault::Memory => Failure::NoMemory,
    }
}
