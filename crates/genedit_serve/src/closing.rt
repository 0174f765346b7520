//! What the server prints.

ghost use Rattle.std.specs.Prelude.{◌≡◌, ◌++◌, ◌+◌, length, OnOk, IfOk, decimal};
ghost use Rattle.genedit_serve.specs.Closing.{address_text, kept_line, link_line, listening_line, port_text, web_text, end_word, session_line, session_lines, closed_line, closing_text};

use crate::address::{Address, WebAddress};
use itoa::Buffer;
use seat_server::{Finished, SessionEnd};
use std::alloc::{AllocError, Global};
use std::net::TcpListener;
use web_requests::House;

/// Where browsers and connections come: the link, and the port at which the listener is.
pub fn address_text(alloc: Global, address: &Address, port: u16) -> Result<Vec<u8>, AllocError>
    ensures { IfOk result (λ text. text.items ≡ address_text address.now port) }
{
    let mut text = Vec::new(alloc);
    push_web(&mut text, &address.web)?;
    push_port(&mut text, &address.listener, port)?;
    Ok(text)
}

/// That so many edits of a file were opened again, and so many bytes behind its last whole record cut off.
pub fn kept_line(alloc: Global, edits: usize, lost: usize) -> Result<Vec<u8>, AllocError>
    ensures { IfOk result (λ line. line.items ≡ kept_line edits lost) }
{
    let mut line = Vec::new(alloc);
    line.extend_from_slice(b"kept ")?;
    push_number(&mut line, edits as u64)?;
    line.extend_from_slice(b" lost ")?;
    push_number(&mut line, lost as u64)?;
    line.push(b'\n')?;
    Ok(line)
}

/// A line for each seat's sessions, and a last one for the published list. The seats are numbered from `first` on.
pub fn closing(alloc: Global, first: u16, finished: &Finished) -> Result<Vec<u8>, AllocError>
    ensures { IfOk result (λ text. text.items ≡ closing_text first finished.now) }
{
    let mut text = Vec::new(alloc);
    push_sessions(
        &mut text,
        first,
        finished.account().accepted.as_slice(),
        finished.ends(),
    )?;
    let before = u128::from(finished.account().before);
    let published = finished.account().published.as_slice().len() as u64;
    push_closed(&mut text, before + u128::from(published))?;
    Ok(text)
}

fn push_number(out: &mut Vec<u8>, number: u64) -> Result<(), AllocError>
    ensures { OnOk result (out.new.items ≡ out.old.items ++ decimal number) }
{
    out.extend_from_slice(Buffer::new().format(number).as_bytes())
}

/// Where browsers come, if they do.
fn push_web(out: &mut Vec<u8>, web: &Option<WebAddress>) -> Result<(), AllocError>
    ensures { OnOk result (out.new.items ≡ out.old.items ++ web_text web.now) }
{
    match web {
        None => Ok(()),
        Some(web) => push_link(out, &web.front.house),
    }
}

/// The link by which a browser opens the board.
fn push_link(out: &mut Vec<u8>, house: &House) -> Result<(), AllocError>
    ensures { OnOk result (out.new.items ≡ out.old.items ++ link_line house.now.origin.items house.now.token) }
{
    out.extend_from_slice(b"open ")?;
    out.extend_from_slice(&house.origin)?;
    out.extend_from_slice(b"/#")?;
    out.extend_from_slice(&house.token)?;
    out.push(b'\n')?;
    Ok(())
}

/// Where connections of frames come, if they do.
fn push_port(out: &mut Vec<u8>, listener: &Option<TcpListener>, port: u16) -> Result<(), AllocError>
    ensures { OnOk result (out.new.items ≡ out.old.items ++ port_text listener.now port) }
{
    match listener {
        None => Ok(()),
        Some(_) => push_listening(out, port),
    }
}

/// That the server listens at a port.
fn push_listening(out: &mut Vec<u8>, port: u16) -> Result<(), AllocError>
    ensures { OnOk result (out.new.items ≡ out.old.items ++ listening_line port) }
{
    out.extend_from_slice(b"listening ")?;
    push_number(out, u64::from(port))?;
    out.push(b'\n')?;
    Ok(())
}

/// The fault of the last session of a seat, if it ended by one.
fn push_end(out: &mut Vec<u8>, end: &Option<SessionEnd>) -> Result<(), AllocError>
    ensures { OnOk result (out.new.items ≡ out.old.items ++ end_word end.now) }
{
    match end {
        None | Some(Ok(_)) => Ok(()),
        Some(Err(fault)) => {
            out.extend_from_slice(b" fault ")?;
            push_number(out, u64::from(fault.number()))
        }
    }
}

/// The line of a seat's sessions.
fn push_session(
    out: &mut Vec<u8>,
    number: u64,
    edits: u64,
    end: &Option<SessionEnd>,
) -> Result<(), AllocError>
    ensures { OnOk result (out.new.items ≡ out.old.items ++ session_line number edits end.now) }
{
    out.extend_from_slice(b"session ")?;
    push_number(out, number)?;
    out.extend_from_slice(b" edits ")?;
    push_number(out, edits)?;
    push_end(out, end)?;
    out.push(b'\n')?;
    Ok(())
}

/// The lines of all sessions, in the order of their seats, which are numbered from `first` on.
fn push_sessions(
    out: &mut Vec<u8>,
    first: u16,
    accepted: &[u64],
    ends: &[Option<SessionEnd>],
) -> Result<(), AllocError>
    ensures { OnOk result (out.new.items ≡ out.old.items ++ session_lines first accepted.now ends.now) }
{
    let mut number = u64::from(first);
    for (edits, end) in accepted.iter().zip(ends.iter()) {
        push_session(out, number, *edits, end)?;
        number += 1;
    }
    Ok(())
}

/// The line of the published list.
fn push_closed(out: &mut Vec<u8>, count: u128) -> Result<(), AllocError>
    ensures { OnOk result (out.new.items ≡ out.old.items ++ closed_line count) }
{
    out.extend_from_slice(b"closed ")?;
    out.extend_from_slice(Buffer::new().format(count).as_bytes())?;
    out.push(b'\n')?;
    Ok(())
}
