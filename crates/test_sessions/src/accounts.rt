//! Which of two seats has seen more; and what an account is enough for: its plane is exported, by one worker and
//! by two, and written.

ghost use Rattle.std.specs.Prelude.{◌≡◌, IfOk};
ghost use Rattle.std.specs.Arc.{arc_value};
ghost use Rattle.edit_stamps.specs.PlaneMap.{HasStatesBelow};
ghost use Rattle.stamped_tree.specs.Plane.{map_of};

use delta_exchange::write_state;
use edit_stamps::{Edit, Stamp};
use export::export;
use export_workers::{Free, export_many};
use generations_rule::Rule;
use pattern_cells::Cell;
use relay_board::{Account, Naming, Opened, Pending, Relay, Seat, is_whole, start};
use std::alloc::Global;
use std::marker::Brand;
use std::sync::Wait;
use std::test::Fail;

/// Submits two cells beside one another, as seat 1.
fn draw<J: Naming, R: Wait>(
    rt: &R,
    alloc: Global,
    rule: &Rule,
    seat: &mut Seat<J>,
) -> Result<Pending<J>, Fail> {
    let stamp = Stamp::new(1, 1).ok_or("stamp")?;
    let cells = [
        Cell {
            x: 0,
            y: 0,
            state: 1,
        },
        Cell {
            x: 1,
            y: 0,
            state: 1,
        },
    ];
    let edit = Edit::cells(alloc, rule, stamp, &cells)?;
    match seat.submit(rt, edit) {
        Ok(pending) => Ok(pending),
        Err((_, fault)) => Err(Fail::from(fault.name())),
    }
}

/// Whether a seat has seen its edit once it learns the receipt, and no sooner, and another seat has not.
fn is_learnt<J: Naming, R: Wait + Drop>(
    rt: &R,
    relay: &Relay<J, R>,
    seat: &mut Seat<J>,
    other: &Seat<J>,
    pending: Pending<J>,
) -> bool {
    let Ok(receipt) = seat.receive(rt, pending) else {
        return false;
    };
    let early = seat.has(&receipt) || relay.begins(seat) || !seat.begins(other);
    seat.learn(&receipt);
    let late = seat.has(&receipt) && relay.begins(seat) && other.begins(seat);
    !early && late && !seat.begins(other) && !relay.begins(other)
}

/// The account of a board on which seat 1 drew two cells.
fn finished<J: Naming, R: Wait + Copy + Drop>(
    rt: R,
    alloc: Global,
    opened: Opened<R>,
) -> Result<Account, Fail>
    requires origin { opened.publisher.origin ≡ J.origin }
    requires inbox { (arc_value opened.drain.queue).table.shared.table_id ≡ J.inbox }
    ensures states { IfOk result (λ a. HasStatesBelow opened.rule.states (map_of a.plane)) }
{
    let rule = opened.rule;
    // For the proof alone: the call tells that what is held is a rule.
    let _states = rule.states();
    let (mut relay, mut seats) = opened.named::<J>()?;
    let Some((first, others)) = seats.as_mut_slice().split_first_mut() else {
        return Err(Fail::from("seat 1"));
    };
    let Some(second) = others.first() else {
        return Err(Fail::from("seat 2"));
    };
    let pending = draw(&rt, alloc, &rule, first)?;
    let _turn = relay.turn();
    if !is_learnt(&rt, &relay, first, second, pending) {
        return Err(Fail::from("learnt"));
    }
    relay.close();
    if !is_whole(&relay, &seats) {
        return Err(Fail::from("not whole"));
    }
    match relay.finish(alloc, seats) {
        Ok(account) => Ok(account),
        Err((_, _, fault)) => Err(Fail::from(fault.name())),
    }
}

#[test]
fn an_account_is_exported_and_written(rt: HostRuntime) -> Result<(), Fail> {
    let alloc = rt.alloc();
    let rule = Rule::parse(b"/2/3")?;
    let opened = start(rt, alloc, rule, 2, 1)?;
    let account = finished::<Brand, _>(rt, alloc, opened)?;
    let first = "#CXRLE Pos=0,0 Gen=0\nx = 2, y = 1, rule = /2/3\n2A!\n";
    let text = export(alloc, &rule, &account.plane, 0)?;
    assert_eq!(&rt; text.as_slice(), first.as_bytes());
    let all = export_many(&rt, alloc, &rule, &account.plane, &[0, 1], 2, &Free)?;
    assert_eq!(&rt; all.as_slice().len(), 2);
    assert!(&rt; all.as_slice().iter().all(|answer| answer.is_ok()));
    assert!(&rt; !write_state(alloc, &rule, &account.plane)?.is_empty());
    Ok(())
}
