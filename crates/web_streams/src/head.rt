//! The head of a request, as it comes.

ghost use Rattle.std.specs.Prelude.{◌≡◌, ◌<◌, [], IfOk, vec_len};
ghost use Rattle.web_streams.specs.Behind.{behind_of, ReadsMore};
ghost use Rattle.web_streams.specs.Head.{Hears};

use std::alloc::{AllocError, Global};
use std::io;
use std::io::{ErrorKind, Read};
use web_requests::{House, Refusal, Visit, wanted};

/// How many bytes of a request are read at most while its head has no end.
pub const HEAD_BYTES: usize = 8192;

/// How many bytes are read at once, at most.
const PIECE: usize = 2048;

/// What was heard of a visitor.
#[derive(Drop)]
pub struct HeardHead {
    /// What the head asks for. It waits only where its bytes ended: the connection is closed without an answer.
    pub visit: Visit,
    /// What came behind the head of an upgrade: it is of the socket already.
    pub behind: Vec<u8>,
}

/// Reads until it is clear what is asked for. An error, as at the end of a visitor's time, closes the connection
/// without an answer; a read that was interrupted is made again.
pub fn hear_head<R: Read>(alloc: Global, reader: &mut R, house: &House) -> io::Result<HeardHead>
    ensures { IfOk result (Hears (R.remaining reader.old) (R.remaining reader.new) house.now) }
{
    let mut head = Vec::new(alloc);
    for _piece in 0..u64::MAX {
        match wanted(&head, house) {
            Visit::Waits => {}
            visit => {
                let behind = behind_of(alloc, &visit, &head)?;
                return Ok(HeardHead { visit, behind });
            }
        }
        if head.len() >= HEAD_BYTES {
            return Ok(nothing_behind(alloc, Visit::Refused(Refusal::TooLong)));
        }
        if read_more(reader, &mut head)? {
            return Ok(nothing_behind(alloc, Visit::Waits));
        }
    }
    Err(io::Error::from(ErrorKind::TimedOut))
}

fn nothing_behind(alloc: Global, visit: Visit) -> HeardHead
    ensures visit { result.visit ≡ visit }
    ensures behind { result.behind.items ≡ [] }
{
    HeardHead {
        visit,
        behind: Vec::new(alloc),
    }
}

/// Reads of what comes, up to the most bytes of a head. Whether the end came.
fn read_more<R: Read>(reader: &mut R, head: &mut Vec<u8>) -> io::Result<bool>
    requires { vec_len head.old < 8192 }
    ensures { IfOk result (ReadsMore (R.remaining reader.old) (R.remaining reader.new) head.old.items head.new.items) }
{
    let room = PIECE.min(HEAD_BYTES - head.len());
    let mut piece = [0; PIECE];
    let part = &mut piece[..room];
    match reader.read(part) {
        Ok(0) => Ok(true),
        Ok(count) => {
            head.extend_from_slice(&part[..count])?;
            Ok(false)
        }
        Err(error) if error.kind() == ErrorKind::Interrupted => Ok(false),
        Err(error) => Err(error),
    }
}

/// What came behind the head of an upgrade.
fn behind_of(alloc: Global, visit: &Visit, head: &[u8]) -> Result<Vec<u8>, AllocError>
    ensures { IfOk result (λ behind. behind.items ≡ behind_of head.now visit.now) }
{
    match visit {
        Visit::Board(request) => match head.get(request.head_len..) {
            Some(behind) => Vec::from_slice(alloc, behind),
            None => Ok(Vec::new(alloc)),
        },
        Visit::Waits | Visit::Page | Visit::Refused(_) => Ok(Vec::new(alloc)),
    }
}
