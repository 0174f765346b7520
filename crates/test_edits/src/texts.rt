//! Values from outside: texts written after Golly's help and LifeWiki's description of the format, and
//! each call once.

ghost use Rattle.std.specs.Prelude.{◌≤◌, ◌^◌, IfOk};

use generations_rule::Rule;
use multistate_rle::{RleFault, are_writable, parse, write};
use pattern_cells::{Cell, Pattern};
use std::alloc::{AllocError, Global};

/// How many nonzero cells a text has: the caller of README.md.
fn population(alloc: Global, text: &[u8]) -> Result<u32, RleFault>
    ensures { IfOk result (λ n. n ≤ 2 ^ 20) }
{
    let pattern = parse(alloc, text)?;
    Ok(pattern.cells().len() as u32)
}

#[test]
fn counts_cells(rt: HostRuntime) {
    assert!(rt; population(rt.alloc(), b"x = 3, y = 3\nbo$2bo$3o!") == Ok(5));
}

/// Texts, in which `|` stands for a line feed, each with its pattern: width, height, position,
/// generation, and column, row and state of each cell; or with its refusal.
const TEXTS: &str = "\
x = 3, y = 3, rule = B3/S23|bo$2bo$3o!| -> 3 3 at 0 0 gen 0: 1 0 1, 2 1 1, 0 2 1, 1 2 1, 2 2 1
#N Glider|#O Richard K. Guy|#C A ship.|x = 3, y = 3|bob$2bo$3o! -> 3 3 at 0 0 gen 0: 1 0 1, 2 1 1, 0 2 1, 1 2 1, 2 2 1
x = 3, y = 1|pA.yO! -> 3 1 at 0 0 gen 0: 0 0 25, 2 0 255
x=0,y=0|XpApXqA -> 4 1 at 0 0 gen 0: 0 0 24, 1 0 25, 2 0 48, 3 0 49
x = 0, y = 0, rule = 345/2/4|.2A$.2B$2A.A! -> 4 3 at 0 0 gen 0: 1 0 1, 2 0 1, 1 1 2, 2 1 2, 0 2 1, 1 2 1, 3 2 1
x = 9, y = 8|! -> 9 8 at 0 0 gen 0
x = 9, y = 8 -> 9 8 at 0 0 gen 0
x = 0, y = 0||  \t| -> 0 0 at 0 0 gen 0
\r|#C x = 1, y = 1\r|\tx\t=\t2\t,\ty\t=\t1\t,anything at all\r|o\r|! -> 2 1 at 0 0 gen 0: 0 0 1
x = 0, y = 0|1|# 5o!|2\r| b o! -> 13 1 at 0 0 gen 0: 12 0 1
x = 0, y = 0|y|#C a letter follows| O! -> 1 1 at 0 0 gen 0: 0 0 255
x = 0, y = 0|3! -> 0 0 at 0 0 gen 0
x = 0, y = 0|003o -> 3 1 at 0 0 gen 0: 0 0 1, 1 0 1, 2 0 1
x = 0, y = 0|4294967295$o! -> 1 4294967296 at 0 0 gen 0: 0 4294967295 1
x = 0, y = 0|4294967295bo! -> 4294967296 1 at 0 0 gen 0: 4294967295 0 1
x = 4294967295, y = 004294967295|o!garbage -> 4294967295 4294967295 at 0 0 gen 0: 0 0 1
#C note|#CXRLE Pos=-1,2 Gen=7|x = 3, y = 2| 2 b o$ ! end -> 3 2 at -1 2 gen 7: 2 0 1
 -> Header
#C a comment| \t| -> Header
bo$2bo$3o! -> Header
x = 3|bo! -> Header
x = 3, y = 3 rule = B3/S23|bo! -> Header
x = 4294967296, y = 1|bo! -> Header
x = -1, y = 1|bo! -> Header
y = 1, x = 1|bo! -> Header
 # no comment|x = 1, y = 1|o! -> Header
x = 3, y = 1|p! -> Tag 14
x = 3, y = 1|p -> Tag 14
x = 3, y = 1|p | -> Tag 16
x = 3, y = 1|pb! -> Tag 14
x = 3, y = 1|p2A! -> Tag 14
x = 3, y = 1|Yo! -> Tag 13
x = 3, y = 1|o z! -> Tag 15
x = 3, y = 1|2-o! -> Tag 14
x = 3, y = 1|yP! -> State 13
x = 3, y = 1|o 0yX! -> State 15
x = 3, y = 1|0o! -> Count 13
x = 3, y = 1|00$! -> Count 13
x = 0, y = 0|4294967296$o! -> Count 13
x = 0, y = 0|4294967297b! -> Count 13
x = 0, y = 0|4294967295bo2b! -> Count 25
x = 0, y = 0|18446744073709551617o! -> Count 13
x = 0, y = 0|1048577o! -> TooMany
";

/// Lines before a header, each with the position and the generation that they give.
const ORIGINS: &str = "\
#CXRLE Gen=18446744073709551615 -> 0 0 gen 18446744073709551615
#CXRLE Gen=3 Pos=-2147483648,2147483647 -> -2147483648 2147483647 gen 3
#CXRLE -> 0 0 gen 0
#CXRLE Pos=1,1|#CXRLE Pos=2,2 -> 1 1 gen 0
#CXRLE Pos=1|#CXRLE Pos=2147483648,0|#CXRLE Pos=2,-0 -> 2 0 gen 0
#CXRLE Gen=1 Gen=1|#CXRLE Gen=2 -> 0 0 gen 2
#CXRLEPos=1,1|#CXRLE Pos=3,3 Pos=3,3|#CXRLE Gen=18446744073709551616 -> 0 0 gen 0
#CXRLE Pos=+1,1|#CXRLE\tGen=0005 \t -> 0 0 gen 5
";

/// The text with its line feeds.
fn with_line_feeds(alloc: Global, text: &str) -> Result<Vec<u8>, AllocError> {
    let mut bytes = Vec::from_slice(alloc, text.as_bytes())?;
    for byte in bytes.iter_mut() {
        if *byte == b'|' {
            *byte = b'\n';
        }
    }
    Ok(bytes)
}

/// Sides, position and generation.
fn head_told(alloc: Global, pattern: &Pattern) -> Result<String, AllocError> {
    let (x, y) = pattern.pos();
    format!(in alloc;
        "{} {} at {x} {y} gen {}",
        pattern.width(),
        pattern.height(),
        pattern.generation()
    )
}

fn pattern_told(alloc: Global, pattern: &Pattern) -> Result<String, AllocError> {
    let mut told = head_told(alloc, pattern)?;
    let mut mark = ":";
    for cell in pattern.cells() {
        told = format!(in alloc; "{told}{mark} {} {} {}", cell.column, cell.row, cell.state)?;
        mark = ",";
    }
    Ok(told)
}

/// The pattern of a text, or its refusal.
fn answer(alloc: Global, text: &str) -> Result<String, AllocError> {
    match parse(alloc, &with_line_feeds(alloc, text)?) {
        Ok(pattern) => pattern_told(alloc, &pattern),
        Err(fault) => fault.to_string(alloc),
    }
}

/// Whether the text of a line is answered as the line says.
fn is_answered(alloc: Global, line: &str) -> Result<bool, AllocError> {
    match line.split_once(" -> ") {
        Some((text, want)) => Ok(answer(alloc, text)?.as_str() == want),
        None => Ok(false),
    }
}

#[test]
fn reads_texts(rt: HostRuntime) {
    for line in TEXTS.lines() {
        assert!(rt; is_answered(rt.alloc(), line) == Ok(true), "{line}");
    }
}

fn origin_told(alloc: Global, pattern: &Pattern) -> Result<String, AllocError> {
    let (x, y) = pattern.pos();
    format!(in alloc; "{x} {y} gen {}", pattern.generation())
}

/// Position and generation of a text.
fn origin(alloc: Global, text: &str) -> Result<String, AllocError> {
    match parse(alloc, &with_line_feeds(alloc, text)?) {
        Ok(pattern) => origin_told(alloc, &pattern),
        Err(fault) => fault.to_string(alloc),
    }
}

/// What a line gives that stands before a header. What stands behind the header gives nothing.
fn origin_before(alloc: Global, front: &str) -> Result<String, AllocError> {
    let text = format!(in alloc; "{front}|x = 0, y = 0|#CXRLE Pos=9,9 Gen=9|o!")?;
    origin(alloc, text.as_str())
}

/// Whether a line gives the position and the generation that it says.
fn is_origin(alloc: Global, line: &str) -> Result<bool, AllocError> {
    match line.split_once(" -> ") {
        Some((front, want)) => Ok(origin_before(alloc, front)?.as_str() == want),
        None => Ok(false),
    }
}

#[test]
fn reads_origins(rt: HostRuntime) {
    for line in ORIGINS.lines() {
        assert!(rt; is_origin(rt.alloc(), line) == Ok(true), "{line}");
    }
}

/// Width and number of cells of a text's pattern, and whether its copy has the same cells.
fn copied(alloc: Global, text: &[u8]) -> Result<(u64, usize, bool), RleFault> {
    let pattern = parse(alloc, text)?;
    let copy = pattern.copy()?;
    let is_same = copy.cells() == pattern.cells();
    Ok((pattern.width(), pattern.cells().len(), is_same))
}

#[test]
fn keeps_a_million_cells(rt: HostRuntime) {
    assert_eq!(rt;
        copied(rt.alloc(), b"x = 0, y = 0\n1048576o!"),
        Ok((1_048_576, 1_048_576, true))
    );
}

/// Whether a fault has this number and this place.
fn is_numbered(fault: RleFault, number: u8, place: Option<u64>) -> bool {
    fault.number() == number && fault.place() == place
}

static FAULTS: [(RleFault, u8, Option<u64>); 6] = [
    (RleFault::Tag(12), 5, Some(12)),
    (RleFault::Count(13), 6, Some(13)),
    (RleFault::State(14), 7, Some(14)),
    (RleFault::Header, 4, None),
    (RleFault::TooMany, 8, None),
    (RleFault::Memory, 255, None),
];

#[test]
fn numbers_faults(rt: HostRuntime) {
    for (fault, number, place) in &FAULTS {
        assert!(rt; is_numbered(*fault, *number, *place), "{number}");
    }
}

/// Column, row and state.
type Drawn = (i32, i32, u8);

fn cells(alloc: Global, drawn: &[Drawn]) -> Result<Vec<Cell>, AllocError> {
    let mut cells = Vec::new(alloc);
    for (x, y, state) in drawn {
        cells.push(Cell {
            x: *x,
            y: *y,
            state: *state,
        })?;
    }
    Ok(cells)
}

/// The text of cells under the rule of a text, if they can be written.
fn written(
    alloc: Global,
    rule: &[u8],
    generation: u64,
    cells: &[Cell],
) -> Result<Vec<u8>, AllocError> {
    if let Ok(rule) = Rule::parse(rule) {
        if are_writable(&rule, cells) {
            return write(alloc, &rule, generation, cells);
        }
    }
    Ok(Vec::new(alloc))
}

/// Whether cells make this text.
fn is_written(
    alloc: Global,
    rule: &[u8],
    generation: u64,
    drawn: &[Drawn],
    text: &str,
) -> Result<bool, AllocError> {
    let cells = cells(alloc, drawn)?;
    Ok(written(alloc, rule, generation, &cells)?.as_slice() == text.as_bytes())
}

#[test]
fn writes_a_text_without_cells(rt: HostRuntime) {
    let text = "#CXRLE Pos=0,0 Gen=536870912\nx = 0, y = 0, rule = /2/3\n!\n";
    assert!(rt; is_written(rt.alloc(), b"/2/3", 536_870_912, &[], text) == Ok(true));
}

static ONE: [Drawn; 6] = [
    (0, -1, 1),
    (1, -1, 1),
    (0, 0, 2),
    (1, 0, 2),
    (0, 1, 1),
    (1, 1, 1),
];

static TWO: [Drawn; 10] = [
    (0, -2, 1),
    (1, -2, 1),
    (0, -1, 2),
    (1, -1, 2),
    (-1, 0, 1),
    (2, 0, 1),
    (0, 1, 2),
    (1, 1, 2),
    (0, 2, 1),
    (1, 2, 1),
];

#[test]
fn writes_two_generations_of_a_pair(rt: HostRuntime) {
    let one = "#CXRLE Pos=0,-1 Gen=1\nx = 2, y = 3, rule = /2/3\n2A$2B$2A!\n";
    assert!(rt; is_written(rt.alloc(), b"/2/3", 1, &ONE, one) == Ok(true));
    let two = "#CXRLE Pos=-1,-2 Gen=2\nx = 4, y = 5, rule = /2/3\n.2A$.2B$A2.A$.2B$.2A!\n";
    assert!(rt; is_written(rt.alloc(), b"/2/3", 2, &TWO, two) == Ok(true));
}

static WIDEST: [Drawn; 5] = [
    (-2_147_483_648, -7, 24),
    (-2_147_483_647, -7, 25),
    (-2_147_483_646, -7, 48),
    (-2_147_483_645, -7, 49),
    (2_147_483_647, -4, 255),
];

#[test]
fn writes_prefixes_gaps_and_the_widest_box(rt: HostRuntime) {
    let text = "#CXRLE Pos=-2147483648,-7 Gen=0\nx = 4294967296, y = 4, rule = //256\n\
        XpApXqA3$4294967295.yO!\n";
    assert!(rt; is_written(rt.alloc(), b"//256", 0, &WIDEST, text) == Ok(true));
}

/// Every other cell of a row, from column 0 to column 80.
fn every_other() -> [Drawn; 41] {
    let mut cells = [(0, 0, 1); 41];
    for i in 0..41usize {
        cells[i] = (2 * i as i32, 0, 1);
    }
    cells
}

/// A line has at most 70 bytes.
#[test]
fn writes_two_lines_of_tokens(rt: HostRuntime) {
    let text = "#CXRLE Pos=0,0 Gen=0\nx = 81, y = 1, rule = 23/3/2\n\
        obobobobobobobobobobobobobobobobobobobobobobobobobobobobobobobobobobob\n\
        obobobobobo!\n";
    assert!(rt; is_written(rt.alloc(), b"23/3/2", 0, &every_other(), text) == Ok(true));
}
