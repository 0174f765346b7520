//! What a visitor has to know.

/// How many hexadecimal digits a token and a key have: 128 bits.
pub const DIGITS: usize = 32;

/// What the links to a board carry behind `#`, and who comes for a seat has to say.
pub type Token = [u8; DIGITS];

/// By what a page comes back to its seat. The page draws it.
pub type SeatKey = [u8; DIGITS];

/// Under which name a board is served, and to whom.
#[derive(Drop)]
pub struct House {
    /// The one `Host` that is served, as `127.0.0.1:7080` (RFC 9110, section 7.2).
    pub host: Vec<u8>,
    /// The one `Origin` whose pages may open a socket, as `http://127.0.0.1:7080` (RFC 6454, section 6.2).
    pub origin: Vec<u8>,
    pub token: Token,
}
