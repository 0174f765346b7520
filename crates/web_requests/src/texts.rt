//! The bytes of each answer.

ghost use Rattle.std.specs.Prelude.{◌≡◌, ◌++◌, IfOk, OnOk};
ghost use Rattle.web_requests.specs.Texts.{ending, no_seat_text, opening, page_text, refusal_text, welcome_text};

use crate::refusal::Refusal;
use itoa::Buffer;
use std::alloc::{AllocError, Global};

/// What each answer but the upgrade says of itself.
const GUARDS: &[u8] =
    b"Cache-Control: no-store\r\nX-Content-Type-Options: nosniff\r\nReferrer-Policy: no-referrer\r\nCross-Origin-Resource-Policy: same-origin\r\nCross-Origin-Opener-Policy: same-origin\r\n";

/// A message without a mask, whole, of the one byte 45: no seat is left.
const NO_SEAT: &[u8] = &[130, 1, 45];

/// The answer to who is turned away. The connection ends behind it.
pub fn refusal_text(alloc: Global, refusal: Refusal) -> Result<Vec<u8>, AllocError>
    ensures { IfOk result (λ text. text.items ≡ refusal_text refusal) }
{
    let mut text = Vec::new(alloc);
    put_opening(&mut text, refusal.status())?;
    text.extend_from_slice(refusal.lines().as_bytes())?;
    text.extend_from_slice(b"Content-Type: text/plain; charset=utf-8\r\n")?;
    put_ending(&mut text, refusal.advice().as_bytes())?;
    Ok(text)
}

/// The page's answer, with what the page may do as a content security policy. The policy is one line.
pub fn page_text(alloc: Global, page: &[u8], policy: &str) -> Result<Vec<u8>, AllocError>
    ensures { IfOk result (λ text. text.items ≡ page_text page.now policy.now) }
{
    let mut text = Vec::new(alloc);
    put_opening(&mut text, "200 OK")?;
    text.extend_from_slice(
        b"Connection: close\r\nContent-Type: text/html; charset=utf-8\r\nContent-Security-Policy: ",
    )?;
    text.extend_from_slice(policy.as_bytes())?;
    text.extend_from_slice(b"\r\n")?;
    put_ending(&mut text, page)?;
    Ok(text)
}

/// The answer to who gets a seat, by the value that answers the handshake's key. A socket follows.
pub fn welcome_text(alloc: Global, accept: &[u8; 28]) -> Result<Vec<u8>, AllocError>
    ensures { IfOk result (λ text. text.items ≡ welcome_text accept.now) }
{
    let mut text = Vec::from_slice(
        alloc,
        b"HTTP/1.1 101 Switching Protocols\r\nConnection: Upgrade\r\nUpgrade: websocket\r\nSec-WebSocket-Accept: ",
    )?;
    text.extend_from_slice(accept)?;
    text.extend_from_slice(b"\r\n\r\n")?;
    Ok(text)
}

/// The answer to who would get a seat if one were left: a socket over which 45 is told, since a page sees no
/// other answer to an upgrade. The connection ends behind it.
pub fn no_seat_text(alloc: Global, accept: &[u8; 28]) -> Result<Vec<u8>, AllocError>
    ensures { IfOk result (λ text. text.items ≡ no_seat_text accept.now) }
{
    let mut text = welcome_text(alloc, accept)?;
    text.extend_from_slice(NO_SEAT)?;
    Ok(text)
}

/// Adds an answer's first line, and what each says of itself.
fn put_opening(text: &mut Vec<u8>, status: &str) -> Result<(), AllocError>
    ensures { OnOk result (text.new.items ≡ text.old.items ++ opening status.now) }
{
    text.extend_from_slice(b"HTTP/1.1 ")?;
    text.extend_from_slice(status.as_bytes())?;
    text.extend_from_slice(b"\r\n")?;
    text.extend_from_slice(GUARDS)?;
    Ok(())
}

/// Adds the length of a body, the end of the head, and the body.
fn put_ending(text: &mut Vec<u8>, body: &[u8]) -> Result<(), AllocError>
    ensures { OnOk result (text.new.items ≡ text.old.items ++ ending body.now) }
{
    text.extend_from_slice(b"Content-Length: ")?;
    text.extend_from_slice(Buffer::new().format(body.len()).as_bytes())?;
    text.extend_from_slice(b"\r\n\r\n")?;
    text.extend_from_slice(body)?;
    Ok(())
}
