//! Planes by chance that are told, read and joined.

use crate::messages::deltas::brians_brain;
use crate::messages::random::{Chance, edit};
use delta_exchange::{Message, ReadFault, read, write_state};
use edit_stamps::EditFault;
use generations_rule::Rule;
use stamped_tree::Plane;
use std::alloc::{AllocError, Global};
use std::test::Fail;
use tree_join::join;

/// A plane of four edits by chance, joined.
pub fn plane(alloc: Global, rule: &Rule, chance: &mut Chance) -> Result<Plane, EditFault> {
    let mut plane = Plane::new(alloc)?;
    for _ in 0..4 {
        let Some(edit) = edit(alloc, rule, chance)? else {
            return Err(EditFault::Nothing);
        };
        let drawn = Plane::of_edit(alloc, &edit)?;
        join(alloc, &mut plane, &drawn).or(Err(EditFault::Memory))?;
    }
    Ok(plane)
}

/// The text of a plane with another joined into it.
fn joined_text(
    alloc: Global,
    rule: &Rule,
    plane: &Plane,
    other: &Plane,
) -> Result<Vec<u8>, AllocError> {
    let mut joined = plane.copy()?;
    match join(alloc, &mut joined, other) {
        Ok(()) => write_state(alloc, rule, &joined),
        Err(_) => Err(AllocError),
    }
}

/// What is read of a plane's text.
fn told(alloc: Global, rule: &Rule, plane: &Plane) -> Result<Message, ReadFault> {
    let Ok(text) = write_state(alloc, rule, plane) else {
        return Err(ReadFault::Memory);
    };
    read(alloc, rule, &text)
}

/// Whether two planes, joined either way, have a text.
fn join_as_told(
    alloc: Global,
    rule: &Rule,
    plane: &Plane,
    other: &Plane,
    text: &[u8],
) -> Result<bool, AllocError> {
    Ok(
        joined_text(alloc, rule, plane, other)?.as_slice() == text
            && joined_text(alloc, rule, other, plane)?.as_slice() == text,
    )
}

/// Whether two planes and what is read of their texts have one text where they are joined, whichever is
/// joined into the other.
fn have_one_text(
    alloc: Global,
    rule: &Rule,
    plane: &Plane,
    other: &Plane,
) -> Result<bool, AllocError> {
    let text = joined_text(alloc, rule, plane, other)?;
    let (Ok(message), Ok(another)) = (told(alloc, rule, plane), told(alloc, rule, other)) else {
        return Ok(false);
    };
    match (message.plane(), another.plane()) {
        (Some(told), Some(other_told)) => {
            Ok(
                join_as_told(alloc, rule, plane, other, &text)?
                    && join_as_told(alloc, rule, told, other_told, &text)?
                    && join_as_told(alloc, rule, told, other, &text)?,
            )
        }
        _ => Ok(false),
    }
}

#[test]
fn what_is_joined_has_one_text(rt: HostRuntime) -> Result<(), Fail> {
    let rule = brians_brain()?;
    let mut chance = Chance { state: 23 };
    for round in 0..12_u32 {
        let first = plane(rt.alloc(), &rule, &mut chance)?;
        let second = plane(rt.alloc(), &rule, &mut chance)?;
        assert!(rt;
            have_one_text(rt.alloc(), &rule, &first, &second)?,
            "{round}"
        );
    }
    Ok(())
}
