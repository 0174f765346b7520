//! Clears of almost the whole plane: what one stores, and what a plane stores that takes many.

use edit_stamps::{Edit, EditFault, Rect, Stamp};
use held_plane::{Added, HeldPlane};
use stamped_tree::{Limits, Plane};
use std::alloc::Global;
use std::test::Fail;

/// The plane but for its first and last column and row.
const INNER: Rect = Rect {
    x: -0x3fff_ffff,
    y: -0x3fff_ffff,
    width: 0x7fff_fffe,
    height: 0x7fff_fffe,
};

/// The clear of it by a counter.
fn inner_clear(alloc: Global, counter: u64) -> Result<Edit, EditFault> {
    let stamp = Stamp::new(counter, 1).ok_or(EditFault::Nothing)?;
    Edit::clear(alloc, stamp, INNER)
}

/// How many squares one clear stores over the empty plane, and how many are in use.
fn one_clear(alloc: Global) -> Result<(u32, u32), EditFault> {
    let plane = Plane::of_edit(alloc, &inner_clear(alloc, 1)?)?;
    Ok((plane.nodes(), plane.copy()?.nodes()))
}

#[test]
fn a_clear_stores_few_squares(rt: HostRuntime) -> Result<(), Fail> {
    let (stored, used) = one_clear(rt.alloc())?;
    assert!(rt; stored <= 250 && used <= stored, "{stored}, {used}");
    Ok(())
}

/// Joins a clear.
fn clear_again(alloc: Global, held: &mut HeldPlane, counter: u64) -> Result<(), EditFault> {
    let clear = [inner_clear(alloc, counter)?];
    held.join(Added::Edits(&clear)).or(Err(EditFault::Memory))
}

/// The most squares that a plane stores behind each of a thousand clears, one after another.
fn most_stored(alloc: Global, held: &mut HeldPlane) -> Result<u32, EditFault> {
    let mut most = 0;
    for counter in 1..1001 {
        clear_again(alloc, held, counter)?;
        most = held.plane().nodes().max(most);
    }
    Ok(most)
}

/// The squares in use, and those of the plane where nothing but one clear was written, are as many: and a
/// plane that has taken a thousand stores no more than 4096 and those of one more, since eight times the
/// squares of its copies are fewer.
#[test]
fn a_plane_of_many_clears_is_renewed(rt: HostRuntime) -> Result<(), Fail> {
    let (stored, used) = one_clear(rt.alloc())?;
    let mut held = HeldPlane::new(rt.alloc(), Limits::of_room(1 << 20))?;
    let most = most_stored(rt.alloc(), &mut held)?;
    assert!(rt; most <= stored.saturating_add(4096), "{most}");
    assert_eq!(rt; held.plane().copy()?.nodes(), used);
    Ok(())
}
