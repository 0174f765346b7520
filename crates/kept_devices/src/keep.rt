//! Files that are added to at their end.

ghost use Rattle.kept_devices.specs.Keep.{IsCutBack, IsPush, IsSync, KnownKeep};

use devices::Failed;

/// A file that is added to at its end.
///
/// A failed sync leaves what is pending in doubt: the system may call those bytes written, so that no later
/// sync says anything of them. They are to be cut off; where that fails too the file stays doubtful, also
/// for who opens it next.
pub trait Keep {
    /// What is known of it: how often it failed; and where its bytes are known, how it stands, and how it
    /// stood at each moment before.
    ghost known: { Self → KnownKeep };

    /// Adds all the bytes. They need not be on the disk. A push that failed may have added the first of them.
    fn push_all(&mut self, bytes: &[u8]) -> Result<(), Failed>
        ensures { IsPush (known self.old) (known self.new) result bytes.now };

    /// Behind it, all that was added is on the disk, if no sync failed before.
    fn sync(&mut self) -> Result<(), Failed>
        ensures { IsSync (known self.old) (known self.new) result };

    /// Cuts off what was not synced, on the disk.
    fn cut_back(&mut self) -> Result<(), Failed>
        ensures { IsCutBack (known self.old) (known self.new) result };
}
