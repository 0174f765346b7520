//! How links to a board begin.

ghost use Rattle.std.specs.Prelude.{◌≡◌, ◌++◌, ◌↔◌, IfOk, IsTrue, OnOk, option_map};
ghost use Rattle.url.specs.Host.{borrowed_host};
ghost use Rattle.board_links.specs.Urls.{IsInClear, IsThisMachine, ReadsUrl, host_line, is_board_url, is_web_scheme, origin_text};

use itoa::Buffer;
use std::alloc::{AllocError, Global};
use url::{Host, ParseError, Url};

/// Why a text is not how links to a board begin.
#[derive(Clone, Copy, Debug, PartialEq, Eq)]
pub enum UrlFault {
    /// There was no memory for it, or it has 4 GB.
    Memory,
    /// It is no URL of http or https, or has more than a host and a port.
    Misspelt,
}

impl From<AllocError> for UrlFault {
    ghost use Rattle.board_links.specs.declared.board_url.UrlFault.TheVariants.{Memory};

    ghost from_gives = { λ _ fault. fault ≡ Memory };

    fn from(_error: AllocError) -> UrlFault {
        UrlFault::Memory
    }
}

/// How links to a board begin, and whom its browsers name: a URL of http or https that has a host, perhaps a port, and
/// nothing else (URL Standard).
#[derive(Drop)]
pub struct BoardUrl {
    /// What links begin with, and the origin of the page (RFC 6454): `http://127.0.0.1:7080`. The port is left out where it
    /// is the scheme's own, and no `/` stands behind it.
    pub origin: Vec<u8>,
    /// What a browser names as the host (RFC 9110, section 7.2): `127.0.0.1:7080`.
    pub host: Vec<u8>,
    /// Whether what is said there can be heard on the way: it is http, and not on this machine.
    pub is_in_clear: bool,
}

impl BoardUrl {
    /// Reads one.
    pub fn read(alloc: Global, text: &str) -> Result<BoardUrl, UrlFault>
        ensures { ReadsUrl text.now result }
    {
        let url = match Url::parse(alloc, text) {
            Ok(url) => url,
            Err(ParseError::OutOfMemory | ParseError::Overflow) => return Err(UrlFault::Memory),
            Err(_) => return Err(UrlFault::Misspelt),
        };
        if !is_board_url(&url) {
            return Err(UrlFault::Misspelt);
        }
        let origin = origin_of(alloc, &url)?;
        let host = host_of(alloc, &url)?;
        let is_in_clear = is_in_clear(&url);
        Ok(BoardUrl {
            origin,
            host,
            is_in_clear,
        })
    }
}

/// Whether a URL has a scheme of the web, a host, perhaps a port, and nothing else.
fn is_board_url(url: &Url) -> bool
    ensures { result ≡ is_board_url url.now }
{
    is_web_scheme(url.scheme())
        && url.has_host()
        && url.username().is_empty()
        && url.password().is_none()
        && url.path() == "/"
        && url.query().is_none()
        && url.fragment().is_none()
}

fn is_web_scheme(scheme: &str) -> bool
    ensures { result ≡ is_web_scheme scheme.now }
{
    scheme == "http" || scheme == "https"
}

/// Whether it is http, and not on this machine.
fn is_in_clear(url: &Url) -> bool
    ensures { IsTrue result ↔ IsInClear url.now }
{
    url.scheme() == "http" && !is_this_machine(url.host())
}

fn is_this_machine(host: Option<Host<&str>>) -> bool
    ensures { IsTrue result ↔ IsThisMachine (option_map borrowed_host host.entry) }
{
    match host {
        None => false,
        Some(Host::Domain(name)) => name == "localhost",
        Some(Host::Ipv4(address)) => address.is_loopback(),
        Some(Host::Ipv6(address)) => address.is_loopback(),
    }
}

/// The scheme, the host and the port, as a browser tells an origin.
fn origin_of(alloc: Global, url: &Url) -> Result<Vec<u8>, AllocError>
    ensures { IfOk result (λ origin. origin.items ≡ origin_text url.now) }
{
    let mut origin = Vec::from_slice(alloc, url.scheme().as_bytes())?;
    origin.extend_from_slice(b"://")?;
    push_host(&mut origin, url)?;
    Ok(origin)
}

/// The host and the port.
fn host_of(alloc: Global, url: &Url) -> Result<Vec<u8>, AllocError>
    ensures { IfOk result (λ host. host.items ≡ host_line url.now) }
{
    let mut host = Vec::new(alloc);
    push_host(&mut host, url)?;
    Ok(host)
}

/// Puts the host behind a text, and the port, where it is not the scheme's own.
fn push_host(text: &mut Vec<u8>, url: &Url) -> Result<(), AllocError>
    ensures { OnOk result (text.new.items ≡ text.old.items ++ host_line url.now) }
{
    if let Some(host) = url.host_str() {
        text.extend_from_slice(host.as_bytes())?;
    }
    if let Some(port) = url.port() {
        text.push(b':')?;
        text.extend_from_slice(Buffer::new().format(port).as_bytes())?;
    }
    Ok(())
}
