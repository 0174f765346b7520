//! Edits in hash tables: when two are equal, and what one feeds a hasher.

ghost use Rattle.std.specs.Prelude.{◌≡◌};
ghost use Rattle.std.specs.Cmp.{partial_equiv_from_equiv};
ghost use Rattle.std.specs.Hash as fed;
ghost use Rattle.std.specs.Hash.{same_Alike};
ghost use Rattle.std.specs.List.{fold};
ghost use Rattle.edit_stamps.specs.Edit.{is_edit};
ghost use Rattle.edit_stamps.specs.Hashing.{fed_of_cell, fed_of_edit, fed_of_rect, number_of_cell};
ghost use Rattle.edit_stamps.specs.OneEdit.{edits_equiv, tells_edits};

use crate::edit::Edit;
use crate::rect::Rect;
use pattern_cells::Cell;
use std::hash::{Hash, Hasher};

/// By all that an edit says: its stamp, its area and its cells.
impl PartialEq for Edit {
    ghost eq = { is_edit };

    ghost laws = { partial_equiv_from_equiv edits_equiv };

    fn eq(&self, other: &Edit) -> bool {
        self.same(other)
    }
}

impl Eq for Edit {
    ghost laws = { edits_equiv };
}

/// All that an edit says is fed, so that two that differ anywhere feed a hasher differently, and in whole
/// words of eight bytes, each of which SipHash takes in one step.
impl Hash for Edit {
    ghost hash_input = { fed_of_edit };

    ghost respects_eq = { (same_Alike fed_of_edit tells_edits).fed };

    fn hash<H: Hasher>(&self, state: &mut H) {
        state.write_u64(self.stamp().number());
        feed_area(self.area(), state);
        feed_cells(self.listed_cells(), state);
    }
}

fn feed_area<H: Hasher>(area: Option<Rect>, state: &mut H)
    ensures { state.new ≡ fold H.write state.old (fed.option fed_of_rect area) }
{
    match area {
        Some(area) => {
            state.write_isize(1);
            feed_rect(area, state);
        }
        None => state.write_isize(0),
    }
}

fn feed_rect<H: Hasher>(rect: Rect, state: &mut H)
    ensures { state.new ≡ fold H.write state.old (fed_of_rect rect) }
{
    state.write_i64(i64::from(rect.x));
    state.write_i64(i64::from(rect.y));
    state.write_u64(u64::from(rect.width));
    state.write_u64(u64::from(rect.height));
}

fn feed_cells<H: Hasher>(cells: &[Cell], state: &mut H)
    ensures { state.new ≡ fold H.write state.old (fed.slice fed_of_cell cells.now) }
{
    state.write_usize(cells.len());
    for cell in cells {
        feed_cell(cell, state);
    }
}

fn feed_cell<H: Hasher>(cell: &Cell, state: &mut H)
    ensures { state.new ≡ fold H.write state.old (fed_of_cell cell.now) }
{
    state.write_u128(number_of_cell(cell));
}

/// A cell as a number of 16 bytes, so that a hasher is called once for it.
fn number_of_cell(cell: &Cell) -> u128
    ensures { result ≡ number_of_cell cell.now }
{
    let row = u128::from(cell.y.cast_unsigned()) * 0x1_0000_0000;
    let column = u128::from(cell.x.cast_unsigned());
    u128::from(cell.state) * 0x1_0000_0000_0000_0000 + row + column
}
