//! Texts of version 1, which is read and no longer written, of planes by chance.

use crate::messages::deltas::brians_brain;
use crate::messages::joined::plane;
use crate::messages::random::Chance;
use crate::messages::states::{FIRST_HEAD, is_retold_as};
use delta_exchange::write_state;
use generations_rule::Rule;
use leaf_merge_lanes::Leaf;
use stamped_tree::{Plane, Square, View};
use std::alloc::{AllocError, Global};
use std::test::Fail;

/// The writes of a leaf, row by row.
fn push_leaf(text: &mut Vec<u8>, leaf: &Leaf) -> Result<(), AllocError> {
    for place in 0..64 {
        let write = leaf.get(place);
        text.extend_from_slice(&write.stamp.to_be_bytes())?;
        text.push(write.state)?;
    }
    Ok(())
}

/// A square of so many levels above leaves.
fn push_square(text: &mut Vec<u8>, square: &Square<'_>, levels: u32) -> Result<(), AllocError> {
    match square.view() {
        View::Blank(stamp) => {
            text.push(0)?;
            text.extend_from_slice(&stamp.to_be_bytes())
        }
        View::Leaf(leaf) => {
            text.push(1)?;
            push_leaf(text, leaf)
        }
        View::Four { nw, ne, sw, se } if levels > 0 => {
            text.push(2)?;
            push_square(text, &nw, levels - 1)?;
            push_square(text, &ne, levels - 1)?;
            push_square(text, &sw, levels - 1)?;
            push_square(text, &se, levels - 1)
        }
        View::Four { .. } => Ok(()),
    }
}

/// The text of a plane, under Brian's Brain.
fn first_text(alloc: Global, plane: &Plane) -> Result<Vec<u8>, AllocError> {
    let mut text = Vec::from_slice(alloc, &FIRST_HEAD)?;
    push_square(&mut text, &plane.root(), 28)?;
    Ok(text)
}

/// Whether what is read of a plane's text of version 1 is written as the plane is.
fn is_read_in_either(alloc: Global, rule: &Rule, plane: &Plane) -> Result<bool, AllocError> {
    let first = first_text(alloc, plane)?;
    let written = write_state(alloc, rule, plane)?;
    is_retold_as(alloc, rule, &first, &written)
}

#[test]
fn a_plane_in_version_1_is_read_and_written_in_version_2(rt: HostRuntime) -> Result<(), Fail> {
    let rule = brians_brain()?;
    let mut chance = Chance { state: 37 };
    for round in 0..12_u32 {
        let plane = plane(rt.alloc(), &rule, &mut chance)?;
        assert!(rt; is_read_in_either(rt.alloc(), &rule, &plane)?, "{round}");
    }
    Ok(())
}
