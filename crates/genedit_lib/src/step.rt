//! What a command of a script comes to.

use lists::ListOf;
use replica_core::Event;

/// What a command of a script comes to.
#[derive(Debug, Drop)]
pub enum Step {
    /// An event of the world, whose reply is printed.
    Happens(Event),
    /// A line of its own; nothing happens in the world.
    Says(Text),
}

/// A line of output, without its end.
pub type Text = ListOf<u8>;
