//! What the lines of an MCell file tell beside its tokens.

ghost use Rattle.std.specs.Prelude.{◌≡◌, ◌≤◌, ◌<◌, ◌+◌, ◌^◌, length, option_map, IfSome, Bool};
ghost use Rattle.std.specs.List.{position_or_len};
ghost use Rattle.text_scan.specs.Bytes.{is_space_or_tab};
ghost use Rattle.cell_files.specs.Heads.{behind_word, board_in_line, board_spelled, ends_word, first_word, head_of, no_head, rule_in_line, value_behind, with_line, wrap_in_line};

use crate::board::Board;
use header_rules::{HeaderRule, spelled_rule, split_line};
use text_scan::{behind, is_blank, number, split_digits, without_blanks, word_len};

/// What is told by the lines in front of a place: of two that tell one thing the last counts.
#[derive(Clone, Copy)]
pub struct Head {
    pub start: usize,
    pub rule: Option<HeaderRule>,
    pub board: Option<Board>,
    pub wraps: bool,
}

impl Head {
    ghost use Rattle.std.specs.Prelude.{◌≡◌, ◌≤◌, ◌+◌, ◌<◌, ◌^◌, length};
    ghost use Rattle.cell_files.specs.Heads.{head_of, no_head, with_line};

    fn new() -> Head
        ensures { result ≡ no_head }
    {
        Head {
            start: 0,
            rule: None,
            board: None,
            wraps: false,
        }
    }

    /// What the lines of a text tell.
    pub fn of(text: &[u8]) -> Head
        ensures { result ≡ head_of text.now }
    {
        let mut head = Head::new();
        let mut rest = Some(text);
        while let Some(lines) = rest {
            let (line, behind) = split_line(lines);
            head.take_line(line);
            rest = behind;
        }
        head
    }

    /// Takes one line more.
    fn take_line(&mut self, line: &[u8])
        requires { self.old.start + length line.now + 1 < 2 ^ 64 }
        ensures { self.new ≡ with_line self.old line.now }
    {
        if let Some(rule) = rule_in_line(self.start, line) {
            self.rule = Some(rule);
        }
        if let Some(board) = board_in_line(line) {
            self.board = Some(board);
        }
        if let Some(wraps) = wrap_in_line(line) {
            self.wraps = wraps;
        }
        self.start += line.len() + 1;
    }
}

/// What stands behind a word with which a line begins.
pub fn behind_word<'a>(word: &[u8], line: &'a [u8]) -> Option<&'a [u8]>
    ensures rest { option_map (λ rest. rest.now) result ≡ behind_word word.now line.now }
    ensures within { IfSome result (λ rest. length rest.now ≤ length line.now) }
{
    let rest = line.strip_prefix(word)?;
    if ends_word(rest) { Some(rest) } else { None }
}

/// Whether a word ends in front of this: it is nothing, or begins with a blank.
fn ends_word(rest: &[u8]) -> bool
    ensures { result ≡ ends_word rest.now }
{
    match rest.first() {
        Some(byte) => is_blank(*byte),
        None => true,
    }
}

/// The same, without the blanks in front.
fn value_behind<'a>(word: &[u8], line: &'a [u8]) -> Option<&'a [u8]>
    ensures rest { option_map (λ rest. rest.now) result ≡ value_behind word.now line.now }
    ensures within { IfSome result (λ rest. length rest.now ≤ length line.now) }
{
    Some(without_blanks(behind_word(word, line)?))
}

/// The word with which a text begins.
fn first_word(text: &[u8]) -> &[u8]
    ensures word { result.now ≡ first_word text.now }
    ensures within { length result.now ≤ length text.now }
{
    &text[..word_len(text)]
}

/// The rule behind `#RULE` of a line that begins at this place.
fn rule_in_line(start: usize, line: &[u8]) -> Option<HeaderRule>
    requires { start + length line.now < 2 ^ 64 }
    ensures { result ≡ rule_in_line start line.now }
{
    let rest = value_behind(b"#RULE", line)?;
    let word = first_word(rest);
    if word.is_empty() {
        return None;
    }
    Some(HeaderRule {
        place: start + (line.len() - rest.len()),
        length: word.len(),
        rule: spelled_rule(word),
        bounds: None,
    })
}

fn board_in_line(line: &[u8]) -> Option<Board>
    ensures { result ≡ board_in_line line.now }
{
    board_spelled(first_word(value_behind(b"#BOARD", line)?))
}

/// The board `WxH`; none where both are 0.
fn board_spelled(word: &[u8]) -> Option<Board>
    ensures { result ≡ board_spelled word.now }
{
    let (digits, rest) = split_digits(word);
    let width = number(u64::from(u32::MAX), digits)?;
    let height = number(u64::from(u32::MAX), behind(b'x', rest)?)?;
    if width + height == 0 {
        return None;
    }
    Some(Board {
        width: width as u32,
        height: height as u32,
    })
}

/// Whether the edges of a board are joined, as a line says.
fn wrap_in_line(line: &[u8]) -> Option<bool>
    ensures { result ≡ wrap_in_line line.now }
{
    Some(first_word(value_behind(b"#WRAP", line)?) != b"0".as_slice())
}
