//! Files of which the one that is held is written durably.

ghost use Rattle.std.specs.Prelude.{◌≡◌, [], IfOk, OnErr, OnOk, Some, length};
ghost use Rattle.durable_device.specs.Kept.{IsRestarted};
ghost use Rattle.command_files.specs.Made.{AreAsTold, KeepsModes, KeepsOthers, MakesAtMost};
ghost use Rattle.command_serve.specs.Reading.{AreKnown};

use crate::MemoryReading;
use command_files::{Disk, FileCause, FileFault, Files, MemoryFiles};
use disk_file::{DiskCalls, DiskReading};
use std::alloc::{AllocError, Global};
use std::fs::File;
use std::rt;
use stored_file::{FileReading, StoredFile, SystemFile, TearingFile};

/// Files of which the one that is held is written durably.
pub trait DurableFiles: Files {
    /// A file that is written durably.
    type Stored: StoredFile + Drop;

    /// A file that is read piece by piece before.
    type Reading: FileReading + Drop;

    /// The file whose name is held, all of it on the disk, but for what an earlier program did last and failed to bring there. What is
    /// given holds it on; until [`DurableFiles::keep`], the files have the bytes that they had.
    ///
    /// # Errors
    ///
    /// No file has the name, it can't be read or brought to the disk, or memory is wanting. No name is held then.
    fn stored(&mut self, alloc: Global, path: &str) -> Result<Self::Stored, FileFault>
        requires { Self.held self.old ≡ Some path.now }
        ensures made { Self.made self.new ≡ Self.made self.old }
        ensures contents { Self.contents self.new ≡ Self.contents self.old }
        ensures modes { Self.modes self.new ≡ Self.modes self.old }
        ensures restarted { IfOk result (λ file. IsRestarted (Self.Stored.told file)) }
        ensures bytes { IfOk result (λ file. AreAsTold (Self.contents self.old path.now) (Self.Stored.told file).seen) };

    /// The file whose name is held, to be read piece by piece, all of it on the disk, but for what an earlier program did last and failed
    /// to bring there. The name is held on.
    ///
    /// # Errors
    ///
    /// No file has the name, it can't be read or brought to the disk, or memory is wanting.
    fn reading(&mut self, alloc: Global, path: &str) -> Result<Self::Reading, FileFault>
        requires { Self.held self.old ≡ Some path.now }
        ensures made { Self.made self.new ≡ Self.made self.old }
        ensures contents { Self.contents self.new ≡ Self.contents self.old }
        ensures modes { Self.modes self.new ≡ Self.modes self.old }
        ensures held { OnOk result (Self.held self.new ≡ Self.held self.old) }
        ensures none { IfOk result (λ reading. Self.Reading.given reading ≡ []) }
        ensures bytes { IfOk result (λ reading. AreKnown (Self.contents self.old path.now) (Self.Reading.known reading)) };

    /// The same file, once all of it was read, as [`DurableFiles::stored`] gives it, but nothing is read.
    ///
    /// # Errors
    ///
    /// A read of it failed, or memory is wanting. No name is held then.
    fn stored_read(
        &mut self,
        alloc: Global,
        path: &str,
        reading: Self::Reading,
    ) -> Result<Self::Stored, FileFault>
        requires held { Self.held self.old ≡ Some path.now }
        requires whole { length (Self.Reading.given reading) ≡ Self.Reading.size reading }
        ensures made { Self.made self.new ≡ Self.made self.old }
        ensures contents { Self.contents self.new ≡ Self.contents self.old }
        ensures modes { Self.modes self.new ≡ Self.modes self.old }
        ensures restarted { IfOk result (λ file. IsRestarted (Self.Stored.told file)) }
        ensures bytes { IfOk result (λ file. (Self.Stored.told file).seen ≡ Self.Reading.given reading) };

    /// From now on the name has the bytes of this file. Of a file of the system it has them already, and none is told as made.
    ///
    /// # Errors
    ///
    /// Memory is wanting: nothing has changed then.
    fn keep(&mut self, path: &str, file: Self::Stored) -> Result<(), AllocError>
        ensures made { MakesAtMost path.now (Self.made self.old) (Self.made self.new) }
        ensures bytes { OnOk result (AreAsTold (Self.contents self.new path.now) (Self.Stored.told file).seen) }
        ensures others { KeepsOthers path.now (Self.contents self.old) (Self.contents self.new) }
        ensures unmade { OnErr result (Self.made self.new ≡ Self.made self.old) }
        ensures kept { OnErr result (Self.contents self.new ≡ Self.contents self.old) }
        ensures modes { KeepsModes (Self.modes self.old) (Self.modes self.new) };
}

impl<'a, R: rt::Files<File = File> + AllocGlobal> DurableFiles for Disk<'a, R> {
    type Stored = SystemFile<DiskCalls<'a, R>>;

    type Reading = DiskReading;

    fn stored(
        &mut self,
        alloc: Global,
        _path: &str,
    ) -> Result<SystemFile<DiskCalls<'a, R>>, FileFault> {
        disk_file::open(alloc, self)
    }

    fn reading(&mut self, _alloc: Global, _path: &str) -> Result<DiskReading, FileFault> {
        disk_file::begin(self)
    }

    fn stored_read(
        &mut self,
        _alloc: Global,
        _path: &str,
        reading: DiskReading,
    ) -> Result<SystemFile<DiskCalls<'a, R>>, FileFault> {
        disk_file::opened(self, reading)
    }

    fn keep(&mut self, _path: &str, _file: SystemFile<DiskCalls<'a, R>>) -> Result<(), AllocError> {
        Ok(())
    }
}

impl DurableFiles for MemoryFiles {
    type Stored = TearingFile;

    type Reading = MemoryReading;

    fn stored(&mut self, alloc: Global, path: &str) -> Result<TearingFile, FileFault> {
        match self.bytes(path) {
            Some(bytes) => Ok(TearingFile::new(alloc, bytes)?),
            None => Err(FileFault::Failed(FileCause::NotFound)),
        }
    }

    fn reading(&mut self, alloc: Global, path: &str) -> Result<MemoryReading, FileFault> {
        match self.bytes(path) {
            Some(bytes) => Ok(MemoryReading::new(bytes.to_vec(alloc)?)),
            None => Err(FileFault::Failed(FileCause::NotFound)),
        }
    }

    fn stored_read(
        &mut self,
        alloc: Global,
        _path: &str,
        reading: MemoryReading,
    ) -> Result<TearingFile, FileFault> {
        Ok(TearingFile::new(alloc, reading.bytes())?)
    }

    fn keep(&mut self, path: &str, file: TearingFile) -> Result<(), AllocError> {
        self.put(path, file.bytes())
    }
}
