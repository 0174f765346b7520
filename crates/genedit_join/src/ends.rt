//! How a client ends.

ghost use Rattle.std.specs.Prelude.{◌≡◌, IfOk};
ghost use Rattle.genedit_join.specs.Away.{is_gone, tries_again};
ghost use Rattle.genedit_join.specs.Ends.{end_behind, end_status, goes_on, is_kept, is_rescued, loses_server, lost_text};

use crate::fault::JoinFault;
use std::alloc::{AllocError, Global};
use typed_commands::Tally;

/// What is known of the board that a client holds.
#[derive(Clone, Copy, Debug, PartialEq, Eq)]
pub(crate) struct Board {
    /// A file of it is wanted.
    pub(crate) is_wanted: bool,
    /// An edit was drawn on it, or heard.
    pub(crate) has_edits: bool,
    /// The file that the client saved last has it.
    pub(crate) is_saved: bool,
}

/// What a client can do that lost its server.
const KEPT_HERE: &[u8] =
    b": the board is kept here; save FILE, export G [FILE], show, pattern, bye";

/// How a client ended that had joined.
#[derive(Clone, Copy, Debug, PartialEq, Eq)]
pub(crate) enum End {
    /// By a fault, or it had lost its server before, by this one.
    Fault(JoinFault),
    /// It left the board, and this came of its lines.
    Left(Tally),
}

/// How a client ended, by what its last step came to, the fault by which it lost its server before, if it
/// did, and what came of its lines.
pub(crate) fn end_behind(last: Result<(), JoinFault>, lost: Option<JoinFault>, tally: Tally) -> End
    ensures { result ≡ end_behind last lost tally }
{
    match (last, lost) {
        (Err(fault), _) => End::Fault(fault),
        (Ok(()), Some(fault)) => End::Fault(fault),
        (Ok(()), None) => End::Left(tally),
    }
}

/// The status of the process. At a terminal that of a client that left is 0: what came of its lines stands
/// there.
pub(crate) fn end_status(end: End, is_terminal: bool) -> u8
    ensures { result ≡ end_status end is_terminal }
{
    match end {
        End::Fault(fault) => fault.exit_status(),
        End::Left(_) if is_terminal => 0,
        End::Left(tally) => tally.well_status(),
    }
}

/// Whether a fault is that the server is lost.
pub(crate) fn loses_server(fault: JoinFault) -> bool
    ensures { result ≡ loses_server fault }
{
    match fault {
        JoinFault::Gone | JoinFault::NoReply | JoinFault::OtherRule => true,
        JoinFault::Run(_) | JoinFault::NoServer | JoinFault::NoSeat | JoinFault::Script => false,
    }
}

/// Whether a client tries its port again behind a fault: where it follows, and its server went away that it had till
/// now.
pub(crate) fn tries_again(fault: JoinFault, is_following: bool, has_server: bool) -> bool
    ensures { result ≡ tries_again fault is_following has_server }
{
    is_following && (has_server && is_gone(fault))
}

/// Whether a fault is that the server went away.
fn is_gone(fault: JoinFault) -> bool
    ensures { result ≡ is_gone fault }
{
    fault == JoinFault::Gone
}

/// Whether a client goes on behind a fault, without its server: at a terminal, where it had one till now.
pub(crate) fn goes_on(fault: JoinFault, is_terminal: bool, has_server: bool) -> bool
    ensures { result ≡ goes_on fault is_terminal has_server }
{
    is_terminal && (has_server && loses_server(fault))
}

/// Whether the board of a client that ends so is written to a file: where nobody serves it any more, since the
/// server is lost just now, or was before.
pub(crate) fn is_rescued(end: End, has_server: bool, board: Board) -> bool
    ensures { result ≡ is_rescued end has_server board }
{
    match end {
        End::Fault(fault) => (!has_server || loses_server(fault)) && is_kept(board),
        End::Left(_) => false,
    }
}

/// Whether a board that may be lost is written to a file: it was drawn on, the last file that the client saved
/// has other bytes, and nobody said that no file is wanted.
pub(crate) fn is_kept(board: Board) -> bool
    ensures { result ≡ is_kept board }
{
    board.is_wanted && (board.has_edits && !board.is_saved)
}

/// That a client lost its server, and what it can do.
pub(crate) fn lost_text(alloc: Global, fault: JoinFault) -> Result<Vec<u8>, AllocError>
    ensures { IfOk result (λ text. text.items ≡ lost_text fault) }
{
    let mut text = Vec::new(alloc);
    text.extend_from_slice(fault.to_string(alloc)?.as_bytes())?;
    text.extend_from_slice(KEPT_HERE)?;
    Ok(text)
}
