//! Rules and pattern texts.

use crate::memory::{is_text, tell_all};
use generations_rule::Rule;
use multistate_rle::{RleFault, are_writable, parse, write};
use pattern_cells::{Cell, Pattern, PatternCell};
use std::alloc::{AllocError, Global};
use std::io;

/// Texts of rules, and their printed forms.
static RULES: [(&str, &str); 3] = [
    ("5433/2/004", "345/2/4"),
    ("/2/3", "/2/3"),
    ("23/3/02", "23/3/2"),
];

/// What a text is read as: its width and height, its position, its generation and its cells.
struct Sheet {
    size: (u64, u64),
    position: (i32, i32),
    generation: u64,
    cells: &'static [PatternCell],
}

macro_rules! marks {
    ($(($column:expr, $row:expr, $state:expr)),*) => {
        &[$(PatternCell { column: $column, row: $row, state: $state }),*]
    };
}

const THREE: &str = "#CXRLE Pos=-1,2 Gen=7\nx = 3, y = 2\n2bo$AC!\n";

/// Three cells.
const SHEET: Sheet = Sheet {
    size: (3, 2),
    position: (-1, 2),
    generation: 7,
    cells: marks![(2, 0, 1), (0, 1, 1), (1, 1, 3)],
};

/// Texts of patterns, and what each is read as or why it is none: blanks and line ends are dropped, and all
/// from the first `!` on; states above 24 have two letters.
static TEXTS: [(&str, Result<Sheet, RleFault>); 8] = [
    (THREE, Ok(SHEET)),
    (
        "#C note\n#CXRLE Pos=-1,2 Gen=7\nx = 3, y = 2\n 2 b o$ ! end\n",
        Ok(Sheet {
            size: (3, 2),
            position: (-1, 2),
            generation: 7,
            cells: marks![(2, 0, 1)],
        }),
    ),
    (
        "x = 3, y = 1\npA.yO!",
        Ok(Sheet {
            size: (3, 1),
            position: (0, 0),
            generation: 0,
            cells: marks![(0, 0, 25), (2, 0, 255)],
        }),
    ),
    ("x = 3, y = 1\n3o2bAp!\n", Err(RleFault::Tag(19))),
    ("x = 3, y = 1\nyP!", Err(RleFault::State(13))),
    ("x = 3, y = 1\np!", Err(RleFault::Tag(14))),
    ("x = 3, y = 1\n0o!", Err(RleFault::Count(13))),
    ("3o!", Err(RleFault::Header)),
];

/// Two cells at generation 9.
const WRITTEN: &str = "#CXRLE Pos=4,-3 Gen=9\nx = 2, y = 1, rule = /2/3\nAB!\n";

/// Every second cell of a row, of 41: a line of the body has 70 bytes at most.
const LONG: &str = "#CXRLE Pos=0,0 Gen=0\nx = 81, y = 1, rule = 23/3/2\n\
    obobobobobobobobobobobobobobobobobobobobobobobobobobobobobobobobobobob\nobobobobobo!\n";

pub fn tell_calls(rt: &impl Print, alloc: Global) -> io::Result<()> {
    tell_all(
        rt,
        "texts",
        &[
            ("Rule::write_text", rules_are_written(alloc)),
            ("parse", texts_are_read(alloc)),
            ("Pattern::copy", pattern_is_copied(alloc)),
            ("write", cells_are_written(alloc)),
            ("write of a long row", long_row_is_written(alloc)),
        ],
    )
}

fn rules_are_written(alloc: Global) -> bool {
    for (text, form) in &RULES {
        if !is_form(alloc, text, form) {
            return false;
        }
    }
    true
}

fn is_form(alloc: Global, text: &str, form: &str) -> bool {
    let Ok(rule) = Rule::parse(text.as_bytes()) else {
        return false;
    };
    is_text(again!(AllocError, rule.write_text(alloc)), form.as_bytes())
}

fn texts_are_read(alloc: Global) -> bool {
    for (text, sheet) in &TEXTS {
        if !is_read(alloc, text, sheet) {
            return false;
        }
    }
    true
}

fn is_read(alloc: Global, text: &str, sheet: &Result<Sheet, RleFault>) -> bool {
    match (read(alloc, text), sheet) {
        (Ok(pattern), Ok(sheet)) => is_sheet(&pattern, sheet),
        (Err(fault), Err(told)) => fault == *told,
        _ => false,
    }
}

fn read(alloc: Global, text: &str) -> Result<Pattern, RleFault> {
    again!(RleFault::Memory, parse(alloc, text.as_bytes()))
}

fn is_sheet(pattern: &Pattern, sheet: &Sheet) -> bool {
    (pattern.width(), pattern.height()) == sheet.size
        && pattern.pos() == sheet.position
        && pattern.generation() == sheet.generation
        && pattern.cells() == sheet.cells
}

/// A pattern of three cells, in a box of 3 by 2.
pub fn pattern(alloc: Global) -> Option<Pattern> {
    read(alloc, THREE).ok()
}

fn pattern_is_copied(alloc: Global) -> bool {
    let Some(pattern) = pattern(alloc) else {
        return false;
    };
    match again!(AllocError, pattern.copy()) {
        Ok(copy) => is_sheet(&copy, &SHEET),
        Err(AllocError) => false,
    }
}

/// Whether cells are written as a text.
fn are_written(alloc: Global, rule: &Rule, generation: u64, cells: &[Cell], text: &str) -> bool {
    are_writable(rule, cells)
        && is_text(
            again!(AllocError, write(alloc, rule, generation, cells)),
            text.as_bytes(),
        )
}

fn cells_are_written(alloc: Global) -> bool {
    let Ok(rule) = Rule::parse(b"/2/3") else {
        return false;
    };
    let cells = cells![(4, -3, 1), (5, -3, 2)];
    are_written(alloc, &rule, 9, &cells, WRITTEN)
}

fn long_row_is_written(alloc: Global) -> bool {
    let Ok(rule) = Rule::parse(b"23/3/2") else {
        return false;
    };
    let mut row = [cell!(0, 0, 1); 41];
    for (place, cell) in row.iter_mut().enumerate() {
        cell.x = 2 * (place & 63) as i32;
    }
    are_written(alloc, &rule, 0, &row, LONG)
}
