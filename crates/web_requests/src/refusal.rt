//! Why somebody is turned away.

ghost use Rattle.std.specs.Prelude.{◌≡◌};

/// Why somebody is turned away. The number is that of HTTP (RFC 9110, section 15).
#[derive(Clone, Copy, Debug, PartialEq, Eq)]
pub enum Refusal {
    /// 400: no head of HTTP/1.0 or 1.1, more than 64 header lines, or a seat's key that is none.
    Malformed,
    /// 403: another page's socket, or one without the token.
    Forbidden,
    /// 404: neither the page nor the board.
    NotFound,
    /// 405: not GET.
    Method,
    /// 421: another host than the house's own, as behind a name that was made to point here.
    Misdirected,
    /// 426: the board is spoken to over a WebSocket alone.
    Upgrade,
    /// 431: 8,192 bytes without the head's end.
    TooLong,
}

impl Refusal {
    ghost use Rattle.web_requests.specs.Texts.{advice_of, lines_beside, status_of};

    /// Its number and name, as a response's first line has them.
    pub fn status(self) -> &'static str
        ensures { result.now ≡ status_of self }
    {
        match self {
            Refusal::Malformed => "400 Bad Request",
            Refusal::Forbidden => "403 Forbidden",
            Refusal::NotFound => "404 Not Found",
            Refusal::Method => "405 Method Not Allowed",
            Refusal::Misdirected => "421 Misdirected Request",
            Refusal::Upgrade => "426 Upgrade Required",
            Refusal::TooLong => "431 Request Header Fields Too Large",
        }
    }

    /// What a person is told who meets it in a browser.
    pub fn advice(self) -> &'static str
        ensures { result.now ≡ advice_of self }
    {
        match self {
            Refusal::Malformed => "This request cannot be read.\n",
            Refusal::Forbidden => "Open the link that the server printed.\n",
            Refusal::NotFound => "Nothing is here. Open the link that the server printed.\n",
            Refusal::Method => "Only GET is answered here.\n",
            Refusal::Misdirected =>
                "The board has another address. Open the link that the server printed.\n",
            Refusal::Upgrade => "The board is reached over a WebSocket.\n",
            Refusal::TooLong => "The head of this request is too long.\n",
        }
    }

    /// The header lines that it alone has: which method there is (RFC 9110, section 15.5.6), and what to speak in
    /// place of HTTP (section 15.5.22; RFC 6455, section 4.4).
    pub fn lines(self) -> &'static str
        ensures { result.now ≡ lines_beside self }
    {
        match self {
            Refusal::Method => "Allow: GET\r\nConnection: close\r\n",
            Refusal::Upgrade =>
                "Upgrade: websocket\r\nSec-WebSocket-Version: 13\r\nConnection: Upgrade, close\r\n",
            Refusal::Malformed
            | Refusal::Forbidden
            | Refusal::NotFound
            | Refusal::Misdirected
            | Refusal::TooLong => "Connection: close\r\n",
        }
    }
}
