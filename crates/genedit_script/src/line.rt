//! The lines of a text, one by one.

ghost use Rattle.std.specs.Prelude.{◌≡◌, ◌+◌, ◌<◌, ◌^◌, ◌==◌, [], ◌∷◌, length, position, MatchOption, IfSome};
ghost use Rattle.std.specs.Str.Lines.{lines, strip_carriage_return};
ghost use Rattle.text_scan.specs.Words.{words};
ghost use Rattle.genedit_script.specs.Script.{is_spoken, lines_from, past_skipped, opens_comment};

use text_scan::split_word;

/// A line of a text.
#[derive(Clone, Copy, Debug)]
pub struct ScriptLine<'a> {
    /// Counted from 1, skipped lines included.
    pub number: u64,
    pub text: &'a [u8],
}

/// What is left of a text, and the number of its next line.
#[derive(Clone, Copy, Debug)]
pub struct Lines<'a> {
    pub number: u64,
    pub rest: &'a [u8],
    ghost small: { number + length rest.now < 2 ^ 64 },
}

impl<'a> Lines<'a> {
    ghost use Rattle.std.specs.Prelude.{◌≡◌, ◌+◌, ◌<◌, [], ◌∷◌, length, MatchOption, IfSome, IfNone};
    ghost use Rattle.std.specs.Str.Lines.{lines};
    ghost use Rattle.text_scan.specs.Words.{words};
    ghost use Rattle.genedit_script.specs.Script.{lines_from, past_skipped};

    pub fn of(text: &'a [u8]) -> Lines<'a>
        ensures { (result.number ≡ 1) × (result.rest.now ≡ text.now) }
    {
        Lines {
            number: 1,
            rest: text,
        }
    }

    /// The next line, whatever it says.
    pub fn next_line(&mut self) -> Option<ScriptLine<'a>>
        ensures line { MatchOption result
            (lines_from self.old.number self.old.rest.now ≡ [])
            (λ line. lines_from self.old.number self.old.rest.now
            ≡ record { number = line.number; text = line.text.now } ∷ lines_from self.new.number self.new.rest.now) }
        ensures end { IfNone result (lines self.new.rest.now ≡ []) }
        ensures same { IfNone result (self.new ≡ self.old) }
        ensures all { self.new.number + length (lines self.new.rest.now) ≡ self.old.number + length (lines self.old.rest.now) }
        ensures shorter { IfSome result (λ line. length self.new.rest.now < length self.old.rest.now) }
    {
        let (text, rest) = split_line(self.rest)?;
        let number = self.number;
        *self = Lines {
            number: number + 1,
            rest,
        };
        Some(ScriptLine { number, text })
    }

    /// The next line that is not skipped.
    pub fn next_spoken(&mut self) -> Option<ScriptLine<'a>>
        ensures line { MatchOption result
            (past_skipped (lines_from self.old.number self.old.rest.now) ≡ [])
            (λ line. past_skipped (lines_from self.old.number self.old.rest.now)
            ≡ record { number = line.number; text = line.text.now } ∷ lines_from self.new.number self.new.rest.now) }
        ensures end { IfNone result (lines self.new.rest.now ≡ []) }
        ensures all { self.new.number + length (lines self.new.rest.now) ≡ self.old.number + length (lines self.old.rest.now) }
        ensures shorter { IfSome result (λ line. length self.new.rest.now < length self.old.rest.now) }
    {
        while let Some(line) = self.next_line() {
            if says_something(line.text) {
                return Some(line);
            }
        }
        None
    }
}

/// Whether some word stands there, and the first begins no comment.
pub fn says_something(line: &[u8]) -> bool
    ensures { result ≡ is_spoken (words line.now) }
{
    match split_word(line) {
        Some((word, _)) => !begins_comment(word),
        None => false,
    }
}

fn begins_comment(word: &[u8]) -> bool
    ensures { result ≡ opens_comment word.now }
{
    word.first() == Some(&b'#')
}

/// The first line of a text, and what stands behind its end.
fn split_line(text: &[u8]) -> Option<(&[u8], &[u8])>
    ensures line { MatchOption result (lines text.now ≡ []) (λ p. lines text.now ≡ p.0.now ∷ lines p.1.now) }
    ensures shorter { IfSome result (λ p. length p.1.now < length text.now) }
{
    if text.is_empty() {
        return None;
    }
    match line_feed_at(text) {
        Some(at) => Some((without_return(&text[..at]), &text[at + 1..])),
        None => Some((text, &[])),
    }
}

fn line_feed_at(text: &[u8]) -> Option<usize>
    ensures found { result ≡ position (λ b. b == 10) text.now }
    ensures within { IfSome result (λ at. at < length text.now) }
{
    text.iter().position(|byte| *byte == b'\n')
}

/// The line without the one carriage return at its end, if it has one.
pub fn without_return(line: &[u8]) -> &[u8]
    ensures { result.now ≡ strip_carriage_return line.now }
{
    match line.split_last() {
        Some((b'\r', front)) => front,
        _ => line,
    }
}
