//! Where browsers come to a board.

use crate::document_reading::Left;
use crate::opening::{tell, tell_unheard};
use crate::token::{drawn_token, kept_token};
use board_links::{BoardUrl, UrlFault};
use genedit_io::RunFault;
use genedit_serve::{WebAddress, listen_web};
use genedit_words::{ServeTask, WebTask};
use std::alloc::{AllocError, Global};
use std::fs::File;
use std::net::{Net, TcpListener, TcpStream};
use std::random::RandomSource;
use std::rt::Files;
use web_doors::Front;
use web_page::{html, policy};
use web_requests::{House, Token};

/// The words are refused.
const REFUSED: u8 = 2;

/// Where a web port is where no address is named: nobody comes there from outside.
const LOOPBACK: &str = "127.0.0.1";

/// Where browsers come to a server's board, if they do; links begin as was named, or with the port's address. Whoever calls
/// has the board's file, if one is named.
pub(crate) fn web_address<
    R: Files<File = File>
        + Input
        + Eprint
        + RandomSource
        + Net<Listener = TcpListener, Stream = TcpStream>,
>(
    rt: &R,
    alloc: Global,
    server: &ServeTask<'_>,
    named: Option<BoardUrl>,
) -> Result<Option<WebAddress>, Left> {
    let Some(web) = server.web else {
        return Ok(None);
    };
    let token = match server.keep {
        Some(board) => kept_token(rt, alloc, board)?,
        None => drawn_token(rt)?,
    };
    let (listener, port) = listened(rt, alloc, &web)?;
    let url = match named {
        Some(url) => url,
        None => own_url(rt, alloc, &web, port)?,
    };
    if url.is_in_clear {
        tell_in_clear(rt, alloc, &url)?;
    }
    Ok(Some(address_by(listener, url, token)))
}

/// What browsers find behind a listener.
fn address_by(listener: TcpListener, url: BoardUrl, token: Token) -> WebAddress {
    let BoardUrl {
        origin,
        host,
        is_in_clear: _,
    } = url;
    let house = House {
        host,
        origin,
        token,
    };
    let front = Front {
        house,
        page: html(),
        policy: policy(),
    };
    WebAddress { listener, front }
}

/// How links begin where the words say so.
pub(crate) fn named_url<R: Eprint>(
    rt: &R,
    alloc: Global,
    server: &ServeTask<'_>,
) -> Result<Option<BoardUrl>, Left> {
    let Some(text) = server.web.and_then(|web| web.url) else {
        return Ok(None);
    };
    match BoardUrl::read(alloc, text) {
        Ok(url) => Ok(Some(url)),
        Err(UrlFault::Memory) => Err(Left::Run(RunFault::Memory)),
        Err(UrlFault::Misspelt) => Err(Left::by(tell_misspelt(rt, alloc, "--url <URL>", text))),
    }
}

/// How links begin where nothing else is said: with the address of the port.
fn own_url<R: Eprint>(
    rt: &R,
    alloc: Global,
    web: &WebTask<'_>,
    port: u16,
) -> Result<BoardUrl, Left> {
    let address = bare_address(web);
    let text = if address.contains(':') {
        format!(in alloc; "http://[{address}]:{port}")?
    } else {
        format!(in alloc; "http://{address}:{port}")?
    };
    match BoardUrl::read(alloc, text.as_str()) {
        Ok(url) => Ok(url),
        Err(UrlFault::Memory) => Err(Left::Run(RunFault::Memory)),
        Err(UrlFault::Misspelt) => Err(Left::by(tell_misspelt(
            rt,
            alloc,
            "--web <[ADDRESS:]Q>",
            address,
        ))),
    }
}

/// The address of a web port. One of IPv6 may stand in brackets.
fn bare_address<'a>(web: &WebTask<'a>) -> &'a str {
    let Some(address) = web.address else {
        return LOOPBACK;
    };
    let within = address
        .strip_prefix('[')
        .and_then(|rest| rest.strip_suffix(']'));
    within.unwrap_or(address)
}

/// Listens at a web port; which one it is.
fn listened<R: Eprint + Net<Listener = TcpListener, Stream = TcpStream>>(
    rt: &R,
    alloc: Global,
    web: &WebTask<'_>,
) -> Result<(TcpListener, u16), Left> {
    let listener = match listen_web(rt, bare_address(web), web.port) {
        Ok(listener) => listener,
        Err(cause) => return Err(Left::by(tell_unheard(rt, alloc, web.port, cause))),
    };
    match listener.local_addr() {
        Ok(local) => Ok((listener, local.port())),
        Err(_) => Err(Left::Run(RunFault::Read)),
    }
}

/// Says that a word is not how links begin; the status of the process.
fn tell_misspelt<R: Eprint>(
    rt: &R,
    alloc: Global,
    option: &str,
    word: &str,
) -> Result<u8, RunFault> {
    let why = format!(in alloc;
        "invalid value '{word}' for '{option}': links begin with http or https, a host, and perhaps a port; as --url https://draw.example.org"
    )?;
    tell(rt, alloc, why.as_bytes())?;
    Ok(REFUSED)
}

/// Says that whoever hears the link on its way has a seat.
fn tell_in_clear<R: Eprint>(rt: &R, alloc: Global, url: &BoardUrl) -> Result<(), AllocError> {
    let origin = String::from_utf8_lossy(alloc, &url.origin)?;
    let origin = origin.as_str();
    let why = format!(in alloc;
        "{origin} is neither https nor this machine: the token travels in the clear, and whoever hears it has a seat"
    )?;
    tell(rt, alloc, why.as_bytes())
}
