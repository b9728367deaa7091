//! Sessions that are cut off at each moment.

ghost use Rattle.std.specs.Prelude.{IfOk};
ghost use Rattle.durable_machine_tests.specs.Kept.{IsKept};
ghost use Rattle.durable_machine_tests.specs.Number.{IsBaseOf};

use crate::Number;
use crate::keeping::{apply, commit, serve};
use durable_machine::{Durable, Fault, InMemory, Store, put_base};
use std::alloc::{AllocError, Global};
use std::test::Fail;
use stored_file::{FileError, SECTOR, StoredFile, TearingFile};

/// The choices of a disk that are tried at each moment.
const SEEDS: u64 = 3;

/// A batch of a session: some events of a byte, and before them one of two bytes, which changes nothing.
fn batch(alloc: Global, index: u8) -> Result<Vec<Vec<u8>>, AllocError> {
    let mut events = Vec::new(alloc);
    events.push(vec![in alloc; index, index]?)?;
    for byte in 0..index % 4 {
        events.push(vec![in alloc; byte.wrapping_mul(7).wrapping_add(index)]?)?;
    }
    Ok(events)
}

/// The number after a batch.
fn after(number: Number, events: &[Vec<u8>]) -> Number {
    let mut number = number;
    for event in events {
        number = number.after(event);
    }
    number
}

/// The store that a file of these bytes, all of them on the disk, opens as.
fn opened(alloc: Global, bytes: &[u8]) -> Result<Durable<Number, TearingFile>, Fault>
    ensures { IfOk result IsKept }
{
    match Durable::open_read(alloc, TearingFile::new(alloc, bytes)?, bytes) {
        Ok(store) => Ok(store),
        Err((fault, _file)) => Err(fault),
    }
}

/// The base of a number.
fn base_of(alloc: Global, number: Number) -> Result<Vec<u8>, AllocError>
    ensures { IfOk result (λ base. IsBaseOf base.items number) }
{
    Ok(vec![in alloc; number.value]?)
}

/// A new store of the number 0, in the place of a file of no bytes.
fn created(alloc: Global) -> Result<Durable<Number, TearingFile>, FileError>
    ensures { IfOk result IsKept }
{
    let number = Number { value: 0 };
    let base = base_of(alloc, number)?;
    match Durable::create(alloc, number, base, TearingFile::new(alloc, &[])?) {
        Ok(store) => Ok(store),
        Err((error, _file)) => Err(error),
    }
}

/// Whether a file that a crash left stands for one of two numbers. Opening it is cut off at each of its moments, too.
fn comes_back(
    alloc: Global,
    left: &[u8],
    seed: u64,
    either: (Number, Number),
) -> Result<bool, Fault> {
    let store = opened(alloc, left)?;
    let number = store.machine;
    if number != either.0 && number != either.1 {
        return Ok(false);
    }
    let file = &store.events.journal.file;
    for moment in 0..=file.moment() {
        let left = file.crashed(alloc, moment, seed)?;
        if opened(alloc, &left)?.machine != number {
            return Ok(false);
        }
    }
    Ok(true)
}

/// Whether each crash at a moment from one to another, and at the last of them, leaves one of two numbers.
fn each_comes_back(
    alloc: Global,
    file: &TearingFile,
    from: usize,
    either: (Number, Number),
) -> Result<bool, Fault> {
    for moment in from..=file.moment() {
        let last = moment == file.moment();
        let allowed = if last { (either.1, either.1) } else { either };
        for seed in 0..SEEDS {
            let left = file.crashed(alloc, moment, seed)?;
            if !comes_back(alloc, &left, seed, allowed)? {
                return Ok(false);
            }
        }
    }
    Ok(true)
}

#[test]
fn each_batch_is_cut_off_at_each_moment(rt: HostRuntime) -> Result<(), Fail> {
    let alloc = rt.alloc();
    let first = created(alloc)?;
    let mut bytes = first.events.journal.file.bytes().to_vec(alloc)?;
    for index in 0..6 {
        let mut store = opened(alloc, &bytes)?;
        let events = batch(alloc, index)?;
        let from = store.events.journal.file.moment();
        let before = store.machine;
        serve(alloc, &mut store, &events)?;
        assert!(rt; store.machine == after(before, &events));
        assert!(rt;
            each_comes_back(
                alloc,
                &store.events.journal.file,
                from,
                (before, store.machine)
            )?
        );
        bytes = store.events.journal.file.bytes().to_vec(alloc)?;
    }
    Ok(())
}

#[test]
fn what_was_done_waits_for_the_commit(rt: HostRuntime) -> Result<(), Fail> {
    let alloc = rt.alloc();
    let mut store = created(alloc)?;
    let from = store.events.journal.file.moment();
    let before = store.machine;
    apply(alloc, &mut store, &[5])?;
    apply(alloc, &mut store, &[1, 2])?;
    apply(alloc, &mut store, &[9])?;
    let after = store.machine;
    assert!(rt; after == before.after(&[5]).after(&[9]));
    assert!(rt; !Store::<Number>::is_committed(&store.events));
    assert_eq!(rt; store.events.journal.file.moment(), from);
    assert!(rt; each_comes_back(alloc, &store.events.journal.file, from, (before, before))?);
    commit(alloc, &mut store)?;
    assert!(rt; Store::<Number>::is_committed(&store.events));
    assert!(rt; store.machine == after);
    assert!(rt; each_comes_back(alloc, &store.events.journal.file, from, (before, after))?);
    let committed = store.events.journal.file.moment();
    apply(alloc, &mut store, &[1, 2])?;
    commit(alloc, &mut store)?;
    assert_eq!(rt; store.events.journal.file.moment(), committed);
    Ok(())
}

#[test]
fn what_is_in_memory_waits_for_nothing(rt: HostRuntime) -> Result<(), Fail> {
    let mut events = InMemory;
    Store::<Number>::note(&mut events, &[5], &[], &[])?;
    assert!(rt; Store::<Number>::is_committed(&events));
    Store::<Number>::commit(&mut events, rt.alloc())?;
    Ok(())
}

#[test]
fn a_fold_is_cut_off_at_each_moment(rt: HostRuntime) -> Result<(), Fail> {
    let alloc = rt.alloc();
    let mut store = created(alloc)?;
    serve(alloc, &mut store, &batch(alloc, 3)?)?;
    let from = store.events.journal.file.moment();
    let number = store.machine;
    let base = base_of(alloc, number)?;
    put_base::<Number, TearingFile>(base, &mut store.events.journal.file)?;
    assert_eq!(rt; store.events.journal.file.bytes().len(), 2 * SECTOR);
    assert!(rt; each_comes_back(alloc, &store.events.journal.file, from, (number, number))?);
    Ok(())
}

#[test]
fn what_no_sync_followed_is_torn(rt: HostRuntime) -> Result<(), Fail> {
    let alloc = rt.alloc();
    let old = vec![in alloc; 7; SECTOR]?;
    let new = vec![in alloc; 9; SECTOR]?;
    let mut file = TearingFile::new(alloc, &old)?;
    file.write_at(0, &new)?;
    let mut kept = false;
    let mut whole = false;
    let mut torn = false;
    for seed in 0..64 {
        let left = file.crashed(alloc, file.moment(), seed)?;
        let is_old = left == old;
        let is_new = left == new;
        kept |= is_old;
        whole |= is_new;
        torn |= !is_old && !is_new;
    }
    assert!(rt; kept && whole && torn);
    file.sync()?;
    for seed in 0..64 {
        let left = file.crashed(alloc, file.moment(), seed)?;
        assert!(rt; left == new);
    }
    Ok(())
}
