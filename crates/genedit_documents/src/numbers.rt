//! The numbers by which people draw who draw apart: a text of lines `65 ann`.

ghost use Rattle.std.specs.Prelude.{◌≡◌, find, option_map, IfOk};
ghost use Rattle.std.specs.List.{list_any};
ghost use Rattle.multistate_rle.specs.HeaderLine.{text_lines};
ghost use Rattle.text_scan.specs.Words.{words};
ghost use Rattle.genedit_documents.specs.Numbers.{AreTold, IsTold, ends_line, greatest, is_at_odds, is_name, is_of, is_other, next_of, number_of, number_text, own_number, parts_words, told_behind};

use header_rules::split_line;
use itoa::Buffer;
use std::alloc::{AllocError, Global};
use text_scan::{is_blank, is_line_end, number, split_word};

/// The first number: those before it are seats of boards that are served.
const FIRST: u16 = 65;

/// A number, and who draws by it.
#[derive(Debug, Drop)]
pub struct Numbering {
    /// 65 to 65535.
    pub number: u16,
    pub name: Vec<u8>,
}

/// Why a text does not tell numbers.
#[derive(Debug, Drop)]
pub enum NumbersFault {
    /// This line says something, but is no number from 65 to 65535 and a name behind it.
    Line(Vec<u8>),
    /// Memory was refused.
    Memory,
}

impl From<AllocError> for NumbersFault {
    ghost use Rattle.std.specs.Prelude.{◌≡◌};
    ghost use Rattle.genedit_documents.specs.declared.numbers.NumbersFault.TheVariants.{Memory};

    ghost from_gives = { λ _ fault. fault ≡ Memory };

    fn from(_error: AllocError) -> NumbersFault {
        NumbersFault::Memory
    }
}

/// By which number somebody draws.
#[derive(Clone, Copy, Debug, PartialEq, Eq)]
pub enum Numbered {
    /// By the one that is told of them.
    Told(u16),
    /// By the next: none is told of them.
    Next(u16),
    /// Two numbers are told of them, or the number of somebody else too.
    AtOdds,
    /// None is told of them, and the last number is somebody's.
    Full,
}

/// The numbers that a text tells, in the order of its lines. Lines without a word are passed over.
pub fn numbers_in(alloc: Global, text: &[u8]) -> Result<Vec<Numbering>, NumbersFault>
    ensures { AreTold (text_lines text.now) result }
{
    let mut told = Vec::new(alloc);
    let mut rest = Some(text);
    while let Some(text) = rest {
        let (line, behind) = split_line(text);
        if let Some(numbering) = numbering_in(alloc, line)? {
            if told.push(numbering).is_err() {
                return Err(NumbersFault::Memory);
            }
        }
        rest = behind;
    }
    Ok(told)
}

/// What a line tells; nothing where it has no word.
fn numbering_in(alloc: Global, line: &[u8]) -> Result<Option<Numbering>, NumbersFault>
    ensures { IsTold line.now result }
{
    let Some((digits, behind)) = split_word(line) else {
        return Ok(None);
    };
    match told_behind(digits, behind) {
        Some((number, name)) => {
            let name = name.to_vec(alloc)?;
            Ok(Some(Numbering { number, name }))
        }
        None => {
            let line = line.to_vec(alloc)?;
            Err(NumbersFault::Line(line))
        }
    }
}

/// The number that a line's first word tells, and the name behind it, where that is its last word.
fn told_behind<'a>(digits: &[u8], behind: &'a [u8]) -> Option<(u16, &'a [u8])>
    ensures { option_map (λ told. (told.0, told.1.now)) result ≡ told_behind digits.now (words behind.now) }
{
    let (name, rest) = split_word(behind)?;
    if split_word(rest).is_some() {
        return None;
    }
    let number = own_number(digits)?;
    Some((number, name))
}

/// A number of somebody who draws apart.
fn own_number(digits: &[u8]) -> Option<u16>
    ensures { result ≡ own_number digits.now }
{
    let number = number(u64::from(u16::MAX), digits)? as u16;
    if number >= FIRST { Some(number) } else { None }
}

/// By which number somebody of a name draws.
pub fn number_of(told: &[Numbering], name: &[u8]) -> Numbered
    ensures { result ≡ number_of told.now name.now }
{
    match own_of(told, name) {
        Some(own) => {
            if is_at_odds(told, own.number, name) {
                Numbered::AtOdds
            } else {
                Numbered::Told(own.number)
            }
        }
        None => next_of(greatest(told)),
    }
}

/// The number behind the greatest that is told.
fn next_of(greatest: u16) -> Numbered
    ensures { result ≡ next_of greatest }
{
    if greatest == u16::MAX {
        return Numbered::Full;
    }
    Numbered::Next(greatest.max(FIRST - 1) + 1)
}

/// What is told of a name, first of all.
fn own_of<'a>(told: &'a [Numbering], name: &[u8]) -> Option<&'a Numbering>
    ensures { option_map (λ own. own.now) result ≡ find (is_of name.now) told.now }
{
    told.iter().find(|numbering| is_of(numbering, name))
}

/// Whether it is told of a name.
fn is_of(told: &Numbering, name: &[u8]) -> bool
    ensures { result ≡ is_of name.now told.now }
{
    told.name.as_slice() == name
}

/// Whether another number is told of a name, or its number of another.
fn is_at_odds(told: &[Numbering], number: u16, name: &[u8]) -> bool
    ensures { result ≡ is_at_odds told.now number name.now }
{
    told.iter().any(|other| is_other(other, number, name))
}

/// Whether just one of the two is so: the number is told, or the name.
fn is_other(told: &Numbering, number: u16, name: &[u8]) -> bool
    ensures { result ≡ is_other number name.now told.now }
{
    let is_own = is_of(told, name);
    if told.number == number {
        !is_own
    } else {
        is_own
    }
}

/// The greatest number that is told; 0 where none is.
fn greatest(told: &[Numbering]) -> u16
    ensures { result ≡ greatest told.now }
{
    let mut greatest = 0;
    for numbering in told {
        greatest = numbering.number.max(greatest);
    }
    greatest
}

/// The text with a line more at its end, which tells a number and a name.
pub fn number_text(
    alloc: Global,
    text: &[u8],
    number: u16,
    name: &[u8],
) -> Result<Vec<u8>, AllocError>
    ensures { IfOk result (λ longer. longer.items ≡ number_text text.now number name.now) }
{
    let mut longer = text.to_vec(alloc)?;
    if !ends_line(text) {
        longer.push(b'\n')?;
    }
    longer.extend_from_slice(Buffer::new().format(u64::from(number)).as_bytes())?;
    longer.push(b' ')?;
    longer.extend_from_slice(name)?;
    longer.push(b'\n')?;
    Ok(longer)
}

/// Whether a text has no byte, or ends with a line feed.
fn ends_line(text: &[u8]) -> bool
    ensures { result ≡ ends_line text.now }
{
    match text.last() {
        None => true,
        Some(byte) => *byte == b'\n',
    }
}

/// Whether a name is one word: some bytes, none of which is a blank or ends a line.
pub fn is_name(name: &[u8]) -> bool
    ensures { result ≡ is_name name.now }
{
    !name.is_empty() && !has_parts(name)
}

/// Whether a blank is among some bytes, or a line's end.
fn has_parts(name: &[u8]) -> bool
    ensures { result ≡ list_any parts_words name.now }
{
    name.iter().any(|byte| parts_words(*byte))
}

/// Whether a byte is a blank, or ends a line.
fn parts_words(byte: u8) -> bool
    ensures { result ≡ parts_words byte }
{
    is_blank(byte) || is_line_end(byte)
}
