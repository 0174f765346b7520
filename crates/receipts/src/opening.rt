//! How a channel for one answer is made.

ghost use Rattle.std.specs.Prelude.{◌≡◌, IfOk};
ghost use Rattle.board.specs.Origins.{origin};
ghost use Rattle.receipts.specs.Ends.{IsOneChannel};
ghost use Rattle.receipts.specs.Topics.{topic};

use crate::bell::Bell;
use crate::ends::{Answering, Pending};
use crate::rule::{Binds, ReceiptRule, Submitted};
use board::{Entry, Front};
use crossbeam_channel::bounded_with;
use std::alloc::{AllocError, Global};
use std::marker::Brand;

/// The two ends of a channel for the answer of one entry, which is for the board of a front. The channel has
/// room for that answer. Only memory may be wanting.
pub fn open(alloc: Global, entry: &Entry, front: &Front) -> Result<(Answering, Pending), AllocError>
    ensures { IfOk result (λ r. IsOneChannel (topic entry.now (origin front.now)) r.0 r.1) }
{
    opened::<Brand>(alloc, entry, front)
}

/// The same, for the entry and the board that the type names.
fn opened<J: Submitted>(
    alloc: Global,
    entry: &Entry,
    front: &Front,
) -> Result<(Answering, Pending), AllocError>
    requires { J.topic ≡ topic entry.now (origin front.now) }
    ensures { IfOk result (λ r. IsOneChannel (topic entry.now (origin front.now)) r.0 r.1) }
{
    let (bell, their_bell) = Bell::pair(alloc)?;
    let (sender, receiver, mut pass) = bounded_with::<_, _, ReceiptRule, _>(alloc, 1)?;
    let other = sender.another::<Binds<J>>(&mut pass);
    let answering = Answering {
        sender,
        pass,
        bell: their_bell,
    };
    let pending = Pending {
        receiver,
        pass: other,
        bell,
    };
    Ok((answering, pending))
}
