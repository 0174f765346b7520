//! Messages as bytes, taken and given by single replicas.

ghost use Rattle.std.specs.Prelude.{◌≡◌, IfOk};
ghost use Rattle.stamped_writes.specs.Write.{AreSame, joined};
ghost use Rattle.stamped_tree.specs.Plane.{map_of};

use delta_exchange::write_delta;
use edit_stamps::{Cell, Edit, Stamp, Write};
use generations_rule::Rule;
use replica_core::{CellList, EditSpec, Fault, Replica};
use std::alloc::{AllocError, Global};
use std::test::Fail;

/// A delta of one edit under `/2/3`: stamp of counter 1 and replica 1, cell (0, 0) = 1.
static FIRST: [u8; 36] =
    *b"GLWD\x01\x04/2/3\x00\x00\x00\x01\x00\x00\x00\x00\x00\x01\x00\x01\x00\x00\x00\x00\x01\x40\x00\x00\x00\x40\x00\x00\x00\x01";

/// The same cell with the last counter, 2^48 - 1.
static LAST: [u8; 36] =
    *b"GLWD\x01\x04/2/3\x00\x00\x00\x01\xff\xff\xff\xff\xff\xff\x00\x01\x00\x00\x00\x00\x01\x40\x00\x00\x00\x40\x00\x00\x00\x01";

fn rule() -> Result<Rule, Fail> {
    Ok(Rule::parse(b"/2/3")?)
}

fn one_cell(alloc: Global, state: u8) -> Result<EditSpec, AllocError> {
    let cells = Vec::from_slice(alloc, &[Cell { x: 0, y: 0, state }])?;
    Ok(EditSpec::Cells(CellList::of_vec(cells)))
}

/// What a replica shows at the origin and how many edits it notes after it took these texts, and the
/// number of the fault of the last, 0 where it was taken.
fn after_taking(alloc: Global, texts: &[&[u8]]) -> Result<(Write, usize, u8), Fail> {
    let mut replica = Replica::new(alloc, rule()?, 2)?;
    let mut number = 0u8;
    for text in texts {
        number = taken(&mut replica, text);
    }
    Ok((replica.get(0, 0), replica.journal().len(), number))
}

/// The number of the fault, 0 where the text was taken.
fn taken(replica: &mut Replica, text: &[u8]) -> u8 {
    match replica.take_bytes(text) {
        Ok(()) => 0,
        Err(fault) => fault.number(),
    }
}

#[test]
fn takes_a_delta_once(rt: HostRuntime) -> Result<(), Fail> {
    let first = Write {
        stamp: 65537,
        state: 1,
    };
    assert_eq!(rt; after_taking(rt.alloc(), &[&FIRST])?, (first, 1, 0));
    assert_eq!(rt; after_taking(rt.alloc(), &[&FIRST, &FIRST])?, (first, 1, 0));
    Ok(())
}

#[test]
fn an_older_delta_changes_no_cell(rt: HostRuntime) -> Result<(), Fail> {
    let last = Write {
        stamp: 0xffff_ffff_ffff_0001,
        state: 1,
    };
    assert_eq!(rt; after_taking(rt.alloc(), &[&LAST])?, (last, 1, 0));
    assert_eq!(rt; after_taking(rt.alloc(), &[&LAST, &FIRST])?, (last, 2, 0));
    Ok(())
}

/// Texts that are no message, each with the number of its fault.
static FAULTY: [(&[u8], u8); 7] = [
    (b"", 17),
    (b"GL", 17),
    (b"XXXX", 14),
    (b"GLWD\x02", 15),
    (b"GLWD\x01\x04/3/3", 16),
    (
        b"GLWS\x01\x04/2/3\x00\x00\x00\x00\x00\x00\x00\x00\x00\x00",
        20,
    ),
    (b"GLWS\x01\x04/2/3\x00\x00\x00\x00\x00\x00\x00\x00\x01", 18),
];

#[test]
fn what_is_no_message_changes_nothing(rt: HostRuntime) -> Result<(), Fail> {
    let first = Write {
        stamp: 65537,
        state: 1,
    };
    for (text, number) in &FAULTY {
        assert_eq!(rt;
            after_taking(rt.alloc(), &[&FIRST, text])?,
            (first, 1, *number)
        );
    }
    Ok(())
}

/// What is drawn after the last counter was taken.
fn draws_past_the_last(alloc: Global) -> Result<Option<Fault>, Fail> {
    let mut replica = Replica::new(alloc, rule()?, 2)?;
    replica.take_bytes(&LAST)?;
    Ok(replica.draw(one_cell(alloc, 1)?).err())
}

#[test]
fn the_last_counter_fills_the_clock(rt: HostRuntime) -> Result<(), Fail> {
    assert!(rt; draws_past_the_last(rt.alloc())? == Some(Fault::ClockFull));
    Ok(())
}

/// A delta of one edit with the first stamp, which sets the cell at the origin.
fn first_stamped(alloc: Global, state: u8) -> Result<Vec<u8>, Fail> {
    let rule = rule()?;
    let Some(stamp) = Stamp::new(1, 1) else {
        return Ok(Vec::new(alloc));
    };
    let edit = Edit::cells(alloc, &rule, stamp, &[Cell { x: 0, y: 0, state }])?;
    Ok(write_delta(alloc, &rule, std::slice::from_ref(&edit))?)
}

/// The state bytes and the number of edits of a replica that took two texts.
fn state_after(alloc: Global, one: &[u8], other: &[u8]) -> Result<(Vec<u8>, usize), Fail> {
    let mut replica = Replica::new(alloc, rule()?, 3)?;
    replica.take_bytes(one)?;
    replica.take_bytes(other)?;
    Ok((replica.state()?, replica.journal().len()))
}

/// Two edits of one stamp, taken in either order: the numbers of edits, the size of the state, and
/// whether the bytes are the same.
fn in_either_order(alloc: Global) -> Result<(usize, usize, usize, bool), Fail> {
    let one = first_stamped(alloc, 1)?;
    let other = first_stamped(alloc, 2)?;
    let (state, edits) = state_after(alloc, &one, &other)?;
    let (turned, turned_edits) = state_after(alloc, &other, &one)?;
    let same = state.as_slice() == turned.as_slice();
    Ok((edits, turned_edits, state.len(), same))
}

#[test]
fn two_edits_of_one_stamp_in_either_order(rt: HostRuntime) -> Result<(), Fail> {
    assert_eq!(rt; in_either_order(rt.alloc())?, (2, 2, 1515, true));
    Ok(())
}

/// A head of a state of version 1.
static FIRST_HEAD: [u8; 10] = [0x47, 0x4c, 0x57, 0x53, 1, 4, 0x2f, 0x32, 0x2f, 0x33];

/// The map where nothing was written, in version 1.
fn first_empty(alloc: Global) -> Result<Vec<u8>, AllocError> {
    let mut text = Vec::from_slice(alloc, &FIRST_HEAD)?;
    text.extend_from_slice(&[0; 9])?;
    Ok(text)
}

/// State 1 at the origin with the first stamp, in version 1: squares of levels 31 to 4, a leaf, and the
/// blanks of those squares that stand behind it.
fn first_one_cell(alloc: Global) -> Result<Vec<u8>, AllocError> {
    let mut text = Vec::from_slice(alloc, &FIRST_HEAD)?;
    text.push(2)?;
    text.extend_from_slice(&[0; 27])?;
    text.extend_from_slice(&[2; 27])?;
    text.extend_from_slice(&[1, 0, 0, 0, 0, 0, 1, 0, 1, 1])?;
    text.extend_from_slice(&[0; 1296])?;
    Ok(text)
}

/// What was taken in version 1 is given in version 2: the write at the origin, and the size of the state.
fn retold(alloc: Global, text: &[u8]) -> Result<(Write, usize), Fail> {
    let mut replica = Replica::new(alloc, rule()?, 2)?;
    replica.take_bytes(text)?;
    Ok((replica.get(0, 0), replica.state()?.len()))
}

#[test]
fn states_of_version_1_are_taken(rt: HostRuntime) -> Result<(), Fail> {
    let alloc = rt.alloc();
    let one = Write {
        stamp: 65537,
        state: 1,
    };
    assert!(rt; retold(alloc, &first_empty(alloc)?)? == (Write::UNWRITTEN, 22));
    assert!(rt; retold(alloc, &first_one_cell(alloc)?)? == (one, 1515));
    Ok(())
}

/// How many bytes a replica that drew two cells gives of so many edits from a place on; and the number of
/// the fault where it gives none.
struct Portion {
    from: u32,
    count: u32,
    bytes: usize,
    fault: u8,
}

static PORTIONS: [Portion; 6] = [
    Portion {
        from: 0,
        count: 2,
        bytes: 58,
        fault: 0,
    },
    Portion {
        from: 1,
        count: 1,
        bytes: 36,
        fault: 0,
    },
    Portion {
        from: 2,
        count: 0,
        bytes: 14,
        fault: 0,
    },
    Portion {
        from: 2,
        count: 1,
        bytes: 0,
        fault: 25,
    },
    Portion {
        from: 3,
        count: 0,
        bytes: 0,
        fault: 25,
    },
    Portion {
        from: u32::MAX,
        count: u32::MAX,
        bytes: 0,
        fault: 25,
    },
];

/// The same two numbers, behind how many bytes the state of that replica has.
fn given(alloc: Global, from: u32, count: u32) -> Result<(usize, usize, u8), Fail> {
    let mut replica = Replica::new(alloc, rule()?, 1)?;
    replica.draw(one_cell(alloc, 1)?)?;
    replica.draw(one_cell(alloc, 2)?)?;
    let state = replica.state()?.len();
    Ok(match replica.delta(from, count) {
        Ok(text) => (state, text.len(), 0),
        Err(fault) => (state, 0, fault.number()),
    })
}

#[test]
fn gives_what_its_journal_has(rt: HostRuntime) -> Result<(), Fail> {
    for portion in &PORTIONS {
        let told = given(rt.alloc(), portion.from, portion.count)?;
        assert_eq!(rt; told, (1515, portion.bytes, portion.fault));
    }
    Ok(())
}

/// The state of one replica, taken by another, is joined: known by the contracts of the two calls.
fn join_bytes(one: &Replica, other: &mut Replica) -> Result<bool, Fault>
    requires { one.now.rule ≡ other.old.rule }
    ensures map { IfOk result (λ _. AreSame (map_of other.new.plane) (joined (map_of other.old.plane) (map_of one.now.plane))) }
    ensures journal { IfOk result (λ _. other.new.journal ≡ other.old.journal) }
{
    let text = one.state()?;
    other.take_bytes(&text)?;
    Ok(true)
}

fn joined_bytes(alloc: Global) -> Result<(Write, usize), Fail> {
    let rule = rule()?;
    let mut one = Replica::new(alloc, rule, 1)?;
    one.draw(one_cell(alloc, 2)?)?;
    let mut other = Replica::new(alloc, rule, 2)?;
    join_bytes(&one, &mut other)?;
    Ok((other.get(0, 0), other.journal().len()))
}

#[test]
fn a_state_here_is_joined_there(rt: HostRuntime) -> Result<(), Fail> {
    let write = Write {
        stamp: 65537,
        state: 2,
    };
    assert_eq!(rt; joined_bytes(rt.alloc())?, (write, 0));
    Ok(())
}
