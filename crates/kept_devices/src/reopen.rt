//! Such files as they are found.

ghost use Rattle.kept_devices.specs.Keep.{KnownKeep};
ghost use Rattle.kept_devices.specs.Reopen.{IsCut, IsRead, IsReplace, TellsDoubt};

use crate::keep::Keep;
use devices::Failed;
use std::alloc::Global;

/// A file that is added to at its end, as it is found: another process may have left it, at any moment.
pub trait Reopen: Keep {
    /// Whether it may hold bytes that the system calls written and that are not on the disk. Such a file is
    /// to be replaced by a copy of what is read of it.
    fn is_doubtful(&self) -> bool
        ensures { TellsDoubt (Self.known self.now) result };

    /// All its bytes, synced or not. None where memory was refused.
    fn read_whole(&mut self, alloc: Global) -> Result<Option<Vec<u8>>, Failed>
        ensures { IsRead (Self.known self.old) (Self.known self.new) result };

    /// Cuts it to a length within what was synced, on the disk. Beyond that it may be refused, and a refusal
    /// counts as a failure.
    fn cut(&mut self, len: usize) -> Result<(), Failed>
        ensures { IsCut (Self.known self.old) (Self.known self.new) result len };

    /// Puts other bytes in the place of the whole file, on the disk: a crash leaves the file as it was, or
    /// all of these. Nothing of it is in doubt then.
    fn replace(&mut self, bytes: &[u8]) -> Result<(), Failed>
        ensures { IsReplace (Self.known self.old) (Self.known self.new) result bytes.now };
}
