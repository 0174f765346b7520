//! What is told while a board is served that is kept.

use kept_devices::Keep;

/// Who is told what hinders the keeper of a board that is served.
pub trait Outages<K: Keep> {
    /// Memory is wanting: what was taken waits until there is some. Told once.
    fn memory_wanted(&self);

    /// The file failed, and takes nothing more. Told once; the submissions that waited are refused by then.
    fn file_failed(&self, file: &K);
}
