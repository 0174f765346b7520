//! Requests.

ghost use Rattle.std.specs.Prelude.{◌≡◌, length, take, All};
ghost use Rattle.httparse.specs.Spans.{IsHeaderWithin, IsRequestWithin, IsWithin, span_bytes};
ghost use Rattle.websocket.specs.Headers.{fields_of};
ghost use Rattle.web_requests.specs.Letting.{IsLetIn};
ghost use Rattle.web_requests.specs.Routes.{AreAnswered, asked_of, IsWanted};

use crate::asked::{Wish, asked_at};
use crate::house::{House, SeatKey};
use crate::lines::has_only;
use crate::refusal::Refusal;
use httparse::Status;
use httparse::spans::{EMPTY_HEADER_SPAN, HeaderSpan, RequestSpans, parse_request};
use websocket::handshake::server::check_request;

/// The most header lines of a request.
pub const LINES: usize = 64;

/// Who comes for a seat.
#[derive(Clone, Copy, Debug, PartialEq, Eq)]
pub struct SeatRequest {
    pub key: SeatKey,
    /// The value of `Sec-WebSocket-Accept` that answers the handshake (RFC 6455, section 4.2.2).
    pub accept: [u8; 28],
    /// How many bytes the head has; what stands behind it is of the socket already.
    pub head_len: usize,
}

/// What a request comes to.
#[derive(Clone, Copy, Debug, PartialEq, Eq)]
pub enum Visit {
    /// Its head is not all there.
    Waits,
    /// The page is given.
    Page,
    /// A socket is opened at a seat.
    Board(SeatRequest),
    Refused(Refusal),
}

/// What the bytes that have come so far ask for.
pub fn wanted(bytes: &[u8], house: &House) -> Visit
    ensures row { IsWanted bytes.now house.now result }
    ensures let_in { IsLetIn bytes.now house.now result }
{
    let mut lines = [EMPTY_HEADER_SPAN; LINES];
    match parse_request(bytes, &mut lines) {
        Ok(Status::Partial) => Visit::Waits,
        Ok(Status::Complete(request)) => visit_of(bytes, &request, &lines, house),
        Err(_) => Visit::Refused(Refusal::Malformed),
    }
}

/// What a whole head comes to.
fn visit_of(head: &[u8], request: &RequestSpans, spans: &[HeaderSpan], house: &House) -> Visit
    requires { IsRequestWithin head.now spans.now request.now }
    ensures { AreAnswered house.now (span_bytes head.now request.now.method) (span_bytes head.now request.now.path)
        request.now.version (fields_of head.now (take request.now.headers spans.now)) request.now.len result }
{
    match asked(head, request, &spans[..request.headers], house) {
        Err(refusal) => Visit::Refused(refusal),
        Ok(Wish::Page) => Visit::Page,
        Ok(Wish::Seat(key)) => match check_request(head, request, spans) {
            Ok(accept) => Visit::Board(SeatRequest {
                key,
                accept,
                head_len: request.len,
            }),
            Err(_) => Visit::Refused(Refusal::Upgrade),
        },
    }
}

/// What a whole head asks for. The host is looked at before anything else.
fn asked(
    head: &[u8],
    request: &RequestSpans,
    lines: &[HeaderSpan],
    house: &House,
) -> Result<Wish, Refusal>
    requires method { IsWithin (length head.now) request.now.method }
    requires path { IsWithin (length head.now) request.now.path }
    requires lines { All (IsHeaderWithin (length head.now)) lines.now }
    ensures { result ≡ asked_of house.now (span_bytes head.now request.now.method) (span_bytes head.now request.now.path)
        (fields_of head.now lines.now) }
{
    if !has_only(head, lines, b"Host", &house.host) {
        return Err(Refusal::Misdirected);
    }
    if request.method.of(head) != b"GET".as_slice() {
        return Err(Refusal::Method);
    }
    asked_at(head, lines, request.path.of(head), house)
}
