//! Planes with one map, square by square.

use edit_stamps::{Cell, Edit, EditFault, Rect, Stamp};
use generations_rule::Rule;
use stamped_tree::{Square, View};
use std::alloc::{AllocError, Global};

/// Whether two squares show the same, so many levels down.
pub fn show_the_same(a: &Square<'_>, b: &Square<'_>, levels: u32) -> bool {
    match (a.view(), b.view()) {
        (View::Blank(stamp), View::Blank(other)) => stamp == other,
        (View::Leaf(leaf), View::Leaf(other)) => leaf == other,
        (
            View::Four { nw, ne, sw, se },
            View::Four {
                nw: other_nw,
                ne: other_ne,
                sw: other_sw,
                se: other_se,
            },
        ) if levels > 0 => {
            show_the_same(&nw, &other_nw, levels - 1)
                && show_the_same(&ne, &other_ne, levels - 1)
                && show_the_same(&sw, &other_sw, levels - 1)
                && show_the_same(&se, &other_se, levels - 1)
        }
        _ => false,
    }
}

/// The upper left corner of the plane's south-eastern quarter.
pub const AREA: Rect = Rect {
    x: 0,
    y: 0,
    width: 16,
    height: 16,
};

/// State 0 listed at each place of the area.
fn zeros(alloc: Global) -> Result<Vec<Cell>, AllocError> {
    let mut list = Vec::new(alloc);
    for place in 0..256_i32 {
        list.push(Cell {
            x: place % 16,
            y: place / 16,
            state: 0,
        })?;
    }
    Ok(list)
}

/// The edit of these zeros.
pub fn zeros_listed(alloc: Global, stamp: Stamp) -> Result<Edit, EditFault> {
    let Ok(rule) = Rule::parse(b"/2/3") else {
        return Err(EditFault::Nothing);
    };
    Edit::cells(alloc, &rule, stamp, &zeros(alloc)?)
}
