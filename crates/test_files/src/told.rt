//! What is read of a file, as a text.

use cell_files::read_cells;
use genedit_convert::{ConvertOptions, Converted, conversion_of, macrocell_of};
use generations_rule::Rule;
use std::alloc::{AllocError, Global};

/// The pattern of a file: `W H at X Y gen G`, and each cell as `x y state`; or its fault.
pub fn cells_of(alloc: Global, file: &[u8]) -> Result<String, AllocError> {
    let pattern = match read_cells(alloc, file) {
        Ok(pattern) => pattern,
        Err(fault) => return format!(in alloc; "{fault}"),
    };
    let (x, y) = pattern.pos();
    let mut text = format!(in alloc;
        "{} {} at {x} {y} gen {}",
        pattern.width(),
        pattern.height(),
        pattern.generation()
    )?;
    for cell in pattern.cells() {
        let cell = format!(in alloc; ", {} {} {}", cell.column, cell.row, cell.state)?;
        text.push_str(cell.as_str())?;
    }
    Ok(text)
}

/// What a file is converted to so many generations later, under this rule or its own, behind it its bounds; or
/// its fault.
pub fn converted(
    alloc: Global,
    file: &[u8],
    generation: Option<u32>,
    rule: &str,
) -> Result<String, AllocError> {
    let options = ConvertOptions {
        generation,
        rule: Rule::parse(rule.as_bytes()).ok(),
    };
    match conversion_of(alloc, &options, file) {
        Ok(Converted { text, bounds }) => {
            let mut told = String::from_utf8_lossy(alloc, &text)?;
            if let Some(bounds) = bounds {
                told.push_str(String::from_utf8_lossy(alloc, &bounds)?.as_str())?;
            }
            Ok(told)
        }
        Err(fault) => format!(in alloc; "{fault}"),
    }
}

/// The macrocell that a file is converted to so many generations later, under this rule or its own; or its fault.
pub fn macrocell(
    alloc: Global,
    file: &[u8],
    generation: Option<u32>,
    rule: &str,
) -> Result<String, AllocError> {
    let options = ConvertOptions {
        generation,
        rule: Rule::parse(rule.as_bytes()).ok(),
    };
    match macrocell_of(alloc, &options, file) {
        Ok(made) => String::from_utf8_lossy(alloc, &made.text),
        Err(fault) => format!(in alloc; "{fault}"),
    }
}
