//! A visit: a head that is heard, and its answer.

ghost use Rattle.std.specs.Prelude.{◌≡◌, IfErr, IfOk, OnOk, option_map};
ghost use Rattle.web_doors.specs.Visits.{IsTellFault, IsTold, IsVisit, IsVisitFault, answer_of, left_by};
ghost use Rattle.web_requests.specs.Texts.{no_seat_text};

use crate::fault::VisitFault;
use crate::front::Front;
use devices::Sink;
use std::alloc::{AllocError, Global};
use std::io::Read;
use web_requests::{SeatRequest, Visit, no_seat_text, page_text, refusal_text};
use web_streams::{HeardHead, hear_head};

/// What became of a visitor.
#[derive(Drop)]
pub enum Visited {
    /// The bytes ended before it was clear what is asked for. Nothing was said.
    Gone,
    /// The page was given, or it was said why not. The connection ends.
    Told,
    /// A seat is asked for, by who is let in. Nothing was said so far. What came behind the head is of the socket
    /// already.
    Seat(SeatRequest, Vec<u8>),
}

/// Hears what a visitor asks for, and answers it, by one push; but who asks for a seat is answered at the seat. Where it
/// fails it has said nothing, or a part of the answer.
pub fn visit<R: Read, K: Sink>(
    alloc: Global,
    reader: &mut R,
    sink: &mut K,
    front: &Front,
) -> Result<Visited, VisitFault>
    ensures visit { IfOk result (IsVisit (R.remaining reader.old) (R.remaining reader.new) front.now (K.known sink.old) (K.known sink.new)) }
    ensures fault { IfErr result (IsVisitFault (R.remaining reader.old) (R.remaining reader.new) front.now (K.known sink.old) (K.known sink.new)) }
{
    let Ok(heard) = hear_head(alloc, reader, &front.house) else {
        return Err(VisitFault::Unheard);
    };
    match answer(alloc, front, &heard.visit)? {
        None => Ok(unanswered(heard)),
        Some(text) => {
            sink.push_all(&text)?;
            Ok(Visited::Told)
        }
    }
}

/// The text that answers what is asked for. None where nothing is asked for, and where a seat is.
fn answer(alloc: Global, front: &Front, visit: &Visit) -> Result<Option<Vec<u8>>, AllocError>
    ensures { IfOk result (λ text. option_map (λ t. t.items) text ≡ answer_of front.now.page.now front.now.policy.now visit.now) }
{
    match visit {
        Visit::Waits | Visit::Board(_) => Ok(None),
        Visit::Page => {
            let text = page_text(alloc, front.page.as_bytes(), front.policy)?;
            Ok(Some(text))
        }
        Visit::Refused(refusal) => {
            let text = refusal_text(alloc, *refusal)?;
            Ok(Some(text))
        }
    }
}

/// What becomes of who is not answered here.
fn unanswered(heard: HeardHead) -> Visited
    ensures { result ≡ left_by heard.visit heard }
{
    let HeardHead { visit, behind } = heard;
    match visit {
        Visit::Board(request) => Visited::Seat(request, behind),
        Visit::Waits | Visit::Page | Visit::Refused(_) => Visited::Gone,
    }
}

/// Tells who asked for a seat that none is left, by one push, over a socket that ends with that.
pub fn tell_no_seat<K: Sink>(
    alloc: Global,
    sink: &mut K,
    request: &SeatRequest,
) -> Result<(), VisitFault>
    ensures told { OnOk result (IsTold (K.known sink.old) (K.known sink.new) (no_seat_text request.now.accept)) }
    ensures fault { IfErr result (IsTellFault (K.known sink.old) (K.known sink.new)) }
{
    let text = no_seat_text(alloc, &request.accept)?;
    sink.push_all(&text)?;
    Ok(())
}
