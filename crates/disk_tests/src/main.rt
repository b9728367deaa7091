//! Calls the files of the system, one after another, in the folder that the program runs in, and prints what each gives.
#![tactic(auto)]

ghost use Rattle.std.specs.Prelude.{◌≡◌, OnOk, Some};

use command_files::{Disk, FileCause, FileFault, Files};
use image_text::{Sink, Source};
use std::alloc::Global;
use std::io::{self, Write};
use std::str;
use stored_file::{SECTOR, StoredFile};

fn main(rt: HostRuntime) -> io::Result<()> {
    let mut files = Disk::new(&rt);
    let mut out = io::writer(&rt);
    read(&mut files, "text", &mut out)?;
    read(&mut files, "missing", &mut out)?;
    open(&mut files, "text", &mut out)?;
    open(&mut files, "missing", &mut out)?;
    write(&mut files, "made", "first text", &mut out)?;
    write(&mut files, "made", "second", &mut out)?;
    write(&mut files, "missing/made", "third", &mut out)?;
    finish(&mut files, "made", &mut out)?;
    finish(&mut files, "missing/made", &mut out)?;
    finish(&mut files, "new", &mut out)?;
    finish(&mut files, ".", &mut out)?;
    discard(&mut files, "made", &mut out)?;
    finish_twice(&mut files, &mut Disk::new(&rt), "made", &mut out)?;
    store(&rt, "stored", &mut out)?;
    match files.read("stored", 1) {
        Ok(bytes) => writeln!(out, "{} bytes: {:?}", bytes.len(), bytes.first()),
        Err(fault) => failed("read", "stored", fault, &mut out),
    }
}

/// Reads a whole file.
fn read<F: Files, W: Write>(files: &mut F, path: &str, out: &mut W) -> io::Result<()>
    ensures { F.held files.new ≡ F.held files.old }
{
    match files.read(path, 1) {
        Ok(bytes) => {
            let text = str::from_utf8(bytes.as_slice()).unwrap_or("no text");
            writeln!(out, "read {path}: {text:?}")
        }
        Err(fault) => failed("read", path, fault, out),
    }
}

/// Reads the first bytes of a file, and those behind them.
fn open<F: Files, W: Write>(files: &mut F, path: &str, out: &mut W) -> io::Result<()> {
    match files.open(path) {
        Ok(mut file) => {
            piece(&mut file, out)?;
            piece(&mut file, out)
        }
        Err(fault) => failed("open", path, fault, out),
    }
}

/// Reads at most 6 bytes of a file of which no read has failed.
fn piece<S: Source, W: Write>(file: &mut S, out: &mut W) -> io::Result<()> {
    if file.failures() > 0 {
        return Ok(());
    }
    let mut bytes = [0; 6];
    match file.read(&mut bytes) {
        Ok(count) => {
            let text = str::from_utf8(bytes.get(..count).unwrap_or(&[])).unwrap_or("no text");
            writeln!(out, "piece: {text:?}")
        }
        Err(_) => writeln!(out, "piece: failed"),
    }
}

/// Makes a file, and reads it.
fn write<F: Files, W: Write>(files: &mut F, path: &str, text: &str, out: &mut W) -> io::Result<()> {
    match files.write(path, text.as_bytes()) {
        Ok(()) => read(files, path, out),
        Err(fault) => failed("write", path, fault, out),
    }
}

/// Makes a file in pieces, and reads it before it is finished and afterwards.
fn finish<F: Files, W: Write>(files: &mut F, path: &str, out: &mut W) -> io::Result<()> {
    match begun(files, path) {
        Ok(file) => {
            read(files, path, out)?;
            match files.finish(path, file) {
                Ok(()) => read(files, path, out),
                Err(fault) => failed("finish", path, fault, out),
            }
        }
        Err(fault) => failed("begin", path, fault, out),
    }
}

/// Makes a file twice under one hold, which others can't have between.
fn finish_twice<F: Files, W: Write>(
    files: &mut F,
    others: &mut F,
    path: &str,
    out: &mut W,
) -> io::Result<()> {
    match begun(files, path) {
        Ok(file) => match files.finish(path, file) {
            Ok(()) => {
                hold(others, path, out)?;
                finish_empty(files, path, out)
            }
            Err(fault) => failed("finish", path, fault, out),
        },
        Err(fault) => failed("begin", path, fault, out),
    }
}

/// Holds a name.
fn hold<F: Files, W: Write>(files: &mut F, path: &str, out: &mut W) -> io::Result<()> {
    match files.hold(path) {
        Ok(()) => writeln!(out, "hold {path}: held"),
        Err(fault) => failed("hold", path, fault, out),
    }
}

/// Makes a file of no bytes whose name is held, and reads it.
fn finish_empty<F: Files, W: Write>(files: &mut F, path: &str, out: &mut W) -> io::Result<()>
    requires { F.held files.old ≡ Some path.now }
{
    match files.begin(path) {
        Ok(file) => match files.finish(path, file) {
            Ok(()) => read(files, path, out),
            Err(fault) => failed("finish", path, fault, out),
        },
        Err(fault) => failed("begin", path, fault, out),
    }
}

/// Begins a file, and forgets it.
fn discard<F: Files, W: Write>(files: &mut F, path: &str, out: &mut W) -> io::Result<()> {
    match begun(files, path) {
        Ok(file) => {
            let _cause = files.discard(file);
            read(files, path, out)?;
            read(files, "made.unfinished", out)
        }
        Err(fault) => failed("begin", path, fault, out),
    }
}

/// Opens a file to read and write it durably, and reads what is there then.
fn store<W: Write>(rt: &HostRuntime, path: &str, out: &mut W) -> io::Result<()> {
    let mut files = Disk::new(rt);
    write(&mut files, path, "old", out)?;
    hold(&mut files, path, out)?;
    match disk_file::open(rt.alloc(), &mut files) {
        Ok(mut stored) => {
            changes(rt.alloc(), &mut stored, out)?;
            hold(&mut files, path, out)?;
            drop(stored);
            hold(&mut files, path, out)
        }
        Err(fault) => failed("open", path, fault, out),
    }
}

/// Reads a file, writes sectors and puts another file in its place.
fn changes<F: StoredFile, W: Write>(alloc: Global, file: &mut F, out: &mut W) -> io::Result<()> {
    match file.read(alloc) {
        Ok(bytes) => writeln!(out, "stored: {} bytes", bytes.len())?,
        Err(error) => writeln!(out, "stored: {error:?}")?,
    }
    writeln!(out, "read again: {:?}", file.read(alloc).err())?;
    writeln!(out, "cut: {:?}", file.set_len(0))?;
    writeln!(out, "written: {:?}", file.write_at(0, &[b'a'; SECTOR]))?;
    writeln!(out, "synced: {:?}", file.sync())?;
    writeln!(out, "replaced: {:?}", file.replace(&[b'b'; SECTOR]))?;
    writeln!(out, "cut: {:?}", file.set_len(0))?;
    writeln!(out, "written: {:?}", file.write_at(0, &[b'c'; SECTOR]))?;
    writeln!(out, "synced: {:?}", file.sync())
}

/// Holds a name, and begins a file that two pieces are written to.
fn begun<F: Files>(files: &mut F, path: &str) -> Result<F::Writer, FileFault>
    ensures { OnOk result (F.held files.new ≡ Some path.now) }
{
    files.hold(path)?;
    let mut file = files.begin(path)?;
    match file.write(b"in ") {
        Ok(_) => {}
        Err(_) => return Err(FileFault::Failed(FileCause::Other)),
    }
    match file.write(b"pieces") {
        Ok(_) => Ok(file),
        Err(_) => Err(FileFault::Failed(FileCause::Other)),
    }
}

/// What a fault is told as.
fn failed<W: Write>(call: &str, path: &str, fault: FileFault, out: &mut W) -> io::Result<()> {
    writeln!(out, "{call} {path}: {fault:?}")
}
