//! Requests by their kinds.

ghost use Rattle.std.specs.Prelude.{◌≡◌, length};
ghost use Rattle.std.specs.Int.{cast_signed, from_be_bytes, w32};
ghost use Rattle.session_hub.specs.Request.{request_of, request_as, sized, many_of, await_of};
ghost use Rattle.replica_sessions.specs.Kinds.{request_by, IsWholeRest};

use export::Cut;
use pattern_cells::Window;

/// The longest that a request may await news, in milliseconds: a minute.
const MOST_WAIT: u32 = 60_000;

/// What a request asks. The text of a push, and the generations of a request for many exports, stand in
/// the bytes behind its kind.
#[derive(Clone, Copy, Debug, PartialEq, Eq)]
pub enum Kind {
    Hello,
    Push,
    Poll,
    Whole,
    Export(u32),
    /// The cells in a window, so many generations later.
    Cut(Cut),
    Bye,
    Many(u16),
    /// A poll that waits for news, for so many milliseconds at most.
    Await(u32),
    /// The whole plane, in as many frames as it takes.
    Pieces,
    Faulty,
}

/// The kind of a request, and the bytes behind it.
pub fn kind_of(body: &[u8]) -> (Kind, &[u8])
    ensures request { request_of body.now ≡ request_by result.0 result.1.now }
    ensures whole { IsWholeRest result.0 result.1.now }
{
    match body {
        [] => (Kind::Faulty, body),
        [kind, rest @ ..] => (kind_by(*kind, rest), rest),
    }
}

fn kind_by(kind: u8, rest: &[u8]) -> Kind
    ensures request { request_as kind rest.now ≡ request_by result rest.now }
    ensures whole { IsWholeRest result rest.now }
{
    if kind == 1 {
        bare(Kind::Hello, rest)
    } else if kind == 2 {
        Kind::Push
    } else if kind == 3 {
        bare(Kind::Poll, rest)
    } else if kind == 4 {
        bare(Kind::Whole, rest)
    } else if kind == 5 {
        export_by(rest)
    } else if kind == 6 {
        bare(Kind::Bye, rest)
    } else if kind == 7 {
        many_by(rest)
    } else if kind == 8 {
        await_by(rest)
    } else if kind == 10 {
        cut_by(rest)
    } else if kind == 11 {
        bare(Kind::Pieces, rest)
    } else {
        Kind::Faulty
    }
}

/// A kind behind which nothing may stand.
fn bare(kind: Kind, rest: &[u8]) -> Kind
    requires { IsWholeRest kind rest.now }
    ensures request { sized 0 rest.now (request_by kind rest.now) ≡ request_by result rest.now }
    ensures whole { IsWholeRest result rest.now }
{
    if rest.len() == 0 { kind } else { Kind::Faulty }
}

fn export_by(rest: &[u8]) -> Kind
    ensures request { request_as 5 rest.now ≡ request_by result rest.now }
    ensures whole { IsWholeRest result rest.now }
{
    if rest.len() == 4 {
        Kind::Export(u32::from_be_bytes([rest[0], rest[1], rest[2], rest[3]]))
    } else {
        Kind::Faulty
    }
}

/// A window by its corner and its sides, and a generation, of four bytes each.
fn cut_by(rest: &[u8]) -> Kind
    ensures request { request_as 10 rest.now ≡ request_by result rest.now }
    ensures whole { IsWholeRest result rest.now }
{
    if rest.len() != 20 {
        return Kind::Faulty;
    }
    let (x, behind) = rest.split_at(4);
    let (y, behind) = behind.split_at(4);
    let (width, behind) = behind.split_at(4);
    let (height, behind) = behind.split_at(4);
    let (generation, _behind) = behind.split_at(4);
    Kind::Cut(Cut {
        window: Window {
            x: coordinate_of(x),
            y: coordinate_of(y),
            width: number_of(width),
            height: number_of(height),
        },
        generation: number_of(generation),
    })
}

/// The coordinate in four bytes, in two's complement.
fn coordinate_of(bytes: &[u8]) -> i32
    requires { length bytes.now ≡ 4 }
    ensures { result ≡ cast_signed w32 (from_be_bytes w32 bytes.now) }
{
    i32::from_be_bytes([bytes[0], bytes[1], bytes[2], bytes[3]])
}

/// The number in four bytes.
pub(crate) fn number_of(bytes: &[u8]) -> u32
    requires { length bytes.now ≡ 4 }
    ensures { result ≡ from_be_bytes w32 bytes.now }
{
    u32::from_be_bytes([bytes[0], bytes[1], bytes[2], bytes[3]])
}

fn many_by(rest: &[u8]) -> Kind
    ensures request { many_of rest.now ≡ request_by result rest.now }
    ensures whole { IsWholeRest result rest.now }
{
    if rest.len() < 2 {
        return Kind::Faulty;
    }
    let count = u16::from_be_bytes([rest[0], rest[1]]);
    if rest.len() == 2 + 4 * usize::from(count) {
        Kind::Many(count)
    } else {
        Kind::Faulty
    }
}

fn await_by(rest: &[u8]) -> Kind
    ensures request { await_of rest.now ≡ request_by result rest.now }
    ensures whole { IsWholeRest result rest.now }
{
    if rest.len() != 4 {
        return Kind::Faulty;
    }
    let milliseconds = u32::from_be_bytes([rest[0], rest[1], rest[2], rest[3]]);
    if milliseconds <= MOST_WAIT {
        Kind::Await(milliseconds)
    } else {
        Kind::Faulty
    }
}
