//! A file of the system. What it holds no contract says: only that a failure is told where there was one.

ghost use Rattle.std.specs.Prelude.{◌≡◌, None};
ghost use Rattle.devices.specs.Count.{failures_after};

use crate::beside::{LOST, add_synced, name_beside, put_in_place, sync_folder};
use kept_devices::{Failed, Keep, Reopen};
use std::alloc::Global;
use std::fs::{self, File};
use std::io;
use std::io::{ErrorKind, Read, Seek, Write};
use std::rt::Files;

/// A file that this process alone adds to: it holds the system's lock of the whole file.
///
/// Where a sync fails a mark is put beside it, an empty file whose name ends with `.unsynced`, until it was
/// cut back or replaced: so the next process learns that the file is in doubt. Behind a crash of the system
/// it is not, since what is read then is what the disk has; a mark that is left has it replaced all the same.
#[derive(Drop)]
pub struct FileKeep<'a, R: Files<File = File>> {
    pub(crate) rt: &'a R,
    pub(crate) path: String,
    /// the name of a new file that is to replace it
    pub(crate) replacement: String,
    /// the name of the mark that a sync of it failed
    pub(crate) mark: String,
    pub(crate) file: File,
    /// how many bytes were synced, or found
    pub(crate) synced: u64,
    pub(crate) is_doubtful: bool,
    pub(crate) failures: u64,
    /// the kind of the last of these
    pub(crate) failure: Option<ErrorKind>,
}

impl<'a, R: Files<File = File>> FileKeep<'a, R> {
    /// The path of the file, from the root, through no link.
    pub fn path(&self) -> &str {
        self.path.as_str()
    }

    /// Of which kind the last failure was, if there was one.
    pub fn failure(&self) -> Option<ErrorKind> {
        self.failure
    }

    /// Adds bytes at the end of the file beside it whose name ends with `.lost`, which is made where there is
    /// none: at `Ok` they are on the disk.
    pub fn save_lost(&self, alloc: Global, bytes: &[u8]) -> io::Result<()> {
        let lost = name_beside(alloc, self.path.as_str(), LOST)?;
        add_synced(self.rt, lost.as_str(), bytes)?;
        sync_folder(self.rt, self.path.as_str())
    }

    fn try_sync(&mut self) -> io::Result<()>
        ensures { self.new.failures ≡ self.old.failures }
    {
        let synced = self.file.sync_data();
        if synced.is_err() {
            self.doubt();
        }
        synced?;
        if !self.is_doubtful {
            self.synced = self.file.metadata()?.len();
        }
        Ok(())
    }

    fn try_cut(&mut self, len: u64) -> io::Result<()>
        ensures { self.new.failures ≡ self.old.failures }
    {
        if len > self.synced {
            return Err(io::Error::from(ErrorKind::InvalidInput));
        }
        self.file.set_len(len)?;
        let synced = self.file.sync_all();
        if synced.is_err() {
            self.doubt();
        }
        synced?;
        self.settle();
        self.synced = len;
        Ok(())
    }

    fn try_replace(&mut self, bytes: &[u8]) -> io::Result<()>
        ensures { self.new.failures ≡ self.old.failures }
    {
        let permissions = self.file.metadata()?.permissions();
        let replacement = self.replacement.as_str();
        let path = self.path.as_str();
        self.file = put_in_place(self.rt, replacement, path, bytes, permissions)?;
        let synced = sync_folder(self.rt, self.path.as_str());
        if synced.is_err() {
            self.doubt();
        }
        synced?;
        self.settle();
        self.synced = bytes.len() as u64;
        Ok(())
    }

    fn try_read(&mut self, alloc: Global) -> io::Result<Vec<u8>>
        ensures { self.new.failures ≡ self.old.failures }
    {
        let mut bytes = Vec::new(alloc);
        self.file.rewind()?;
        self.file.read_to_end(&mut bytes)?;
        Ok(bytes)
    }

    /// Puts the mark beside it. Where that cannot be done the next process does not learn of it.
    fn doubt(&mut self)
        ensures { self.new.failures ≡ self.old.failures }
    {
        self.is_doubtful = true;
        let _made = fs::create(self.rt, self.mark.as_str());
    }

    /// Takes the mark away, if there is one.
    fn settle(&mut self)
        ensures { self.new.failures ≡ self.old.failures }
    {
        if !self.is_doubtful {
            return;
        }
        self.is_doubtful = false;
        let _gone = fs::remove_file(self.rt, self.mark.as_str());
    }

    /// Counts a failure.
    fn told<T>(&mut self, done: io::Result<T>) -> Result<T, Failed>
        ensures { self.new.failures ≡ failures_after result self.old.failures }
    {
        match done {
            Ok(value) => Ok(value),
            Err(error) => {
                self.failures = self.failures.saturating_add(1);
                self.failure = Some(error.kind());
                Err(Failed)
            }
        }
    }
}

impl<'a, R: Files<File = File>> Keep for FileKeep<'a, R> {
    ghost known = { λ f. record { failures = f.failures; held = None } };

    fn push_all(&mut self, bytes: &[u8]) -> Result<(), Failed> {
        let done = self.file.write_all(bytes);
        self.told(done)
    }

    fn sync(&mut self) -> Result<(), Failed> {
        let done = self.try_sync();
        self.told(done)
    }

    fn cut_back(&mut self) -> Result<(), Failed> {
        let synced = self.synced;
        let done = self.try_cut(synced);
        self.told(done)
    }
}

impl<'a, R: Files<File = File>> Reopen for FileKeep<'a, R> {
    fn is_doubtful(&self) -> bool {
        self.is_doubtful
    }

    fn read_whole(&mut self, alloc: Global) -> Result<Option<Vec<u8>>, Failed> {
        match self.try_read(alloc) {
            Ok(bytes) => Ok(Some(bytes)),
            Err(error) if error.kind() == ErrorKind::OutOfMemory => Ok(None),
            Err(error) => self.told(Err(error)),
        }
    }

    fn cut(&mut self, len: usize) -> Result<(), Failed> {
        let done = self.try_cut(len as u64);
        self.told(done)
    }

    fn replace(&mut self, bytes: &[u8]) -> Result<(), Failed> {
        let done = self.try_replace(bytes);
        self.told(done)
    }
}
