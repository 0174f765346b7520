//! One edit, put into a set.

ghost use Rattle.std.specs.Prelude.{◌≡◌, ◌-◌, ◌<◌, true, false, Some, length, slice_get, MatchResult};
ghost use Rattle.documents.specs.Documents.{has_edit};
ghost use Rattle.documents.specs.Renumber.{is_another};
ghost use Rattle.documents.specs.Results.{IsAt, IsPlaceFor, IsPut};
ghost use Rattle.documents.specs.Sets.{IsAscending};

use crate::fault::DocumentFault;
use edit_stamps::{Edit, Stamp};

/// Puts an edit among those of a set: whether it is new.
pub(crate) fn put_edit(edits: &mut Vec<Edit>, edit: Edit) -> Result<bool, DocumentFault>
    requires { IsAscending edits.old.items }
    ensures { IsPut edits.old.items edit edits.new.items result }
{
    match place_of(edits, edit.stamp()) {
        Ok(place) => {
            if !edits[place].same(&edit) {
                return Err(DocumentFault::SameStamp(edit.stamp()));
            }
            Ok(false)
        }
        Err(place) => {
            edits.insert(place, edit)?;
            Ok(true)
        }
    }
}

/// Whether an edit is in a set.
pub(crate) fn has_edit(edits: &[Edit], edit: &Edit) -> bool
    requires { IsAscending edits.now }
    ensures { result ≡ has_edit edits.now edit.now }
{
    match place_of(edits, edit.stamp()) {
        Ok(place) => edits[place].same(edit),
        Err(_) => false,
    }
}

/// Whether another edit of its stamp is in a set.
pub(crate) fn has_another(edits: &[Edit], edit: &Edit) -> bool
    requires { IsAscending edits.now }
    ensures { result ≡ is_another edits.now edit.now }
{
    match place_of(edits, edit.stamp()) {
        Ok(place) => !edits[place].same(edit),
        Err(_) => false,
    }
}

/// Where the edit of a stamp stands in a set, or where one would.
fn place_of(edits: &[Edit], stamp: Stamp) -> Result<usize, usize>
    requires { IsAscending edits.now }
    ensures { MatchResult result (λ place. IsAt edits.now stamp place) (λ place. IsPlaceFor edits.now stamp place) }
{
    if is_above_all(edits, stamp) {
        return Err(edits.len());
    }
    edits.binary_search_by_key(&stamp, |edit| edit.stamp())
}

/// Whether a stamp is above those of a set, by its last edit alone.
fn is_above_all(edits: &[Edit], stamp: Stamp) -> bool
    requires { IsAscending edits.now }
    ensures { result ≡ true → IsPlaceFor edits.now stamp (length edits.now) }
{
    match edits.last() {
        Some(last) => last.stamp() < stamp,
        None => true,
    }
}
