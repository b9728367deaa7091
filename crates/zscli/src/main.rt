//! The command line of Pifnjarl: files in, one command, text out.
#![tactic(auto)]

mod caused;
mod commands;
mod entries_block;
mod streams;

use caused::Caused;
use command_files::{Disk, Failure, FileCause, conclude};
use commands::{command, ended};
use std::env::{self, Env};
use std::fs::File;
use std::io::{self, IsTerminal, Read, Write};
use std::process::ExitCode;
use std::{fs, rt};
use streams::Streams;

fn main(rt: HostRuntime) -> ExitCode {
    let _held = (null_device(&rt), null_device(&rt), null_device(&rt));
    let mut streams = Streams {
        input: Some(rt.stdin()),
        out: Caused::new(io::writer(&rt)),
        colored: rt.stdout().is_terminal() && !asks_no_color(&rt),
        err: rt.stderr(),
    };
    ExitCode::from(done(&rt, &mut streams))
}

/// Does what the words of the command line ask for, says how that ended, and gives the exit status.
fn done<R: rt::Files<File = File> + Env + AllocGlobal, I: Read + Drop, O: Write, E: Write>(
    rt: &R,
    streams: &mut Streams<I, Caused<O>, E>,
) -> u8 {
    match command_line_words(rt) {
        Ok(words) => done_of_words(rt, words.as_slice(), streams),
        Err(failure) => conclude(Err(failure), &mut streams.err).status,
    }
}

/// Does what these words ask for, says how that ended, and gives the exit status.
fn done_of_words<R: rt::Files<File = File> + AllocGlobal, I: Read + Drop, O: Write, E: Write>(
    rt: &R,
    words: &[String],
    streams: &mut Streams<I, Caused<O>, E>,
) -> u8 {
    let done = ended(on_disk(rt, words, streams));
    if let Err(Failure::CannotPrint) = &done {
        print_cause(streams.out.cause(), &mut streams.err);
    }
    // Where standard error fails, nobody can be told.
    conclude(done, &mut streams.err).status
}

/// The null device, or none where there is none. A standard stream that is closed leaves its number to the file that is opened next: what
/// is printed would go into an image. Held three times, the null device takes the numbers of all three.
fn null_device<R: rt::Files<File = File>>(rt: &R) -> Option<File> {
    match fs::open(rt, "/dev/null") {
        Ok(device) => Some(device),
        Err(_) => None,
    }
}

/// Prints why standard output failed, where that is known.
fn print_cause<E: Write>(cause: FileCause, err: &mut E) {
    let words = cause.words();
    if !words.is_empty() {
        // The line for scripts comes next, also where this one isn't printed.
        let _ = writeln!(err, "-: {words}");
    }
}

/// Does the user want no colors, by a variable `NO_COLOR` that isn't empty?
fn asks_no_color<R: Env + AllocGlobal>(rt: &R) -> bool {
    match env::var(rt, "NO_COLOR") {
        Ok(value) => !value.is_empty(),
        Err(_) => false,
    }
}

/// Does what the words of a command line ask for on the files of the system. The runtime is any here: of the one that `main` is given,
/// the prover finds no proof for files that are written durably.
fn on_disk<'a, R: rt::Files<File = File> + AllocGlobal, I: Read + Drop, O: Write, E: Write>(
    rt: &R,
    words: &'a [String],
    streams: &mut Streams<I, O, E>,
) -> Result<Option<Failure<'a>>, Failure<'a>> {
    let mut files = Disk::new(rt);
    command(rt.alloc(), words, &mut files, streams)
}

/// The words of the command line, the program's name first.
fn command_line_words<R: Env + AllocGlobal>(rt: &R) -> Result<Vec<String>, Failure<'static>> {
    let words = env::args(rt).map_err(|error| Failure::of_words(error))?;
    Ok(words.collect(rt.alloc())?)
}
