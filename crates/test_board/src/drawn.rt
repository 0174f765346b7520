//! The edits that are published and put.

ghost use Rattle.std.specs.Prelude.{IfSome, IsTrue};
ghost use Rattle.edit_stamps.specs.Edit.{has_states_below};

use edit_stamps::{Cell, Edit, Stamp};
use generations_rule::Rule;
use std::alloc::Global;

pub fn brians_brain() -> Option<Rule> {
    Rule::parse(b"/2/3").ok()
}

/// The edit that writes state 1 at a cell of row 0.
pub fn drawn(alloc: Global, rule: &Rule, counter: u64, replica: u16, x: i32) -> Option<Edit>
    ensures { IfSome result (λ edit. IsTrue (has_states_below rule.now.states edit)) }
{
    let stamp = Stamp::new(counter, replica)?;
    Edit::cells(alloc, rule, stamp, &[Cell { x, y: 0, state: 1 }]).ok()
}
