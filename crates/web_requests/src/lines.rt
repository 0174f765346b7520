//! The header lines of a head.

ghost use Rattle.std.specs.Prelude.{◌≡◌, length, option_map, All};
ghost use Rattle.std.specs.List.{list_any};
ghost use Rattle.httparse.specs.Spans.{IsHeaderWithin};
ghost use Rattle.websocket.specs.Headers.{eq_ignore_case, fields_of};
ghost use Rattle.web_requests.specs.Head.{has_only, is_named, only_value};

use httparse::spans::HeaderSpan;

/// Whether one line has this name, no second has it, and its value is this, in any case of letters.
pub(crate) fn has_only(head: &[u8], lines: &[HeaderSpan], name: &[u8], value: &[u8]) -> bool
    requires { All (IsHeaderWithin (length head.now)) lines.now }
    ensures { result ≡ has_only (fields_of head.now lines.now) name.now value.now }
{
    match only_value(head, lines, name) {
        Some(found) => is_same(found, value),
        None => false,
    }
}

/// The value of the one line of this name; None where there is none, or a second.
fn only_value<'a>(head: &'a [u8], lines: &[HeaderSpan], name: &[u8]) -> Option<&'a [u8]>
    requires { All (IsHeaderWithin (length head.now)) lines.now }
    ensures { option_map (λ value. value.now) result ≡ only_value (fields_of head.now lines.now) name.now }
{
    for (place, line) in lines.iter().enumerate() {
        if is_same(line.name.of(head), name) {
            if has_line(head, &lines[place + 1..], name) {
                return None;
            }
            return Some(line.value.of(head));
        }
    }
    None
}

/// Whether there is a line of this name.
fn has_line(head: &[u8], lines: &[HeaderSpan], name: &[u8]) -> bool
    requires { All (IsHeaderWithin (length head.now)) lines.now }
    ensures { result ≡ list_any (is_named name.now) (fields_of head.now lines.now) }
{
    for line in lines {
        if is_same(line.name.of(head), name) {
            return true;
        }
    }
    false
}

/// Whether two texts are equal, but for the case of letters.
fn is_same(a: &[u8], b: &[u8]) -> bool
    ensures { result ≡ eq_ignore_case a.now b.now }
{
    a.eq_ignore_ascii_case(b)
}
