//! What happens in a world of replicas.

use crate::edit_spec::EditSpec;
use pattern_cells::Window;

/// What happens in a world. Replicas are named by their numbers, from 1; messages by theirs, from 1
/// in the order in which they were sent.
#[derive(Debug, Drop)]
pub enum Event {
    /// A replica draws.
    Draw(u32, EditSpec),
    /// A replica sends edits of its journal: from a place on, counted from 0, so many.
    SendDelta(u32, u32, u32),
    /// A replica sends its whole map.
    SendState(u32),
    /// A sent message reaches a replica: any message, any replica, at any later time, and again and
    /// again. A message that is never delivered is lost.
    Deliver(u64, u32),
    /// Somebody looks at a replica's cell at `x`, `y`.
    Show(u32, i32, i32),
    /// Somebody asks whether two replicas hold the same write at every cell.
    Same(u32, u32),
    /// Somebody asks for the bytes of a sent message.
    Dump(u64),
    /// Somebody asks for the text of a replica's cells so many generations later.
    Export(u32, u32),
    /// The same of the cells in a window.
    Cut(u32, Window, u32),
    /// Somebody asks how many cells of a replica are not dead so many generations later, and where.
    Count(u32, u32),
}
