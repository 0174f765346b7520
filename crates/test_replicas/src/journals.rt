//! Journals handed on.

ghost use Rattle.std.specs.Prelude.{◌≡◌, IfOk};
ghost use Rattle.delta_exchange.specs.declared.message.Content.TheVariants.{Edits};

use edit_stamps::{Edit, Rect, Write};
use generations_rule::Rule;
use replica_core::{EditSpec, Message, Replica};
use std::alloc::{AllocError, Global};
use std::test::Fail;

/// The same edits.
fn copies(alloc: Global, edits: &[Edit]) -> Result<Vec<Edit>, AllocError>
    ensures { IfOk result (λ copies. copies.items ≡ edits.now) }
{
    let mut copies = Vec::new(alloc);
    for edit in edits {
        copies.push(edit.copy()?)?;
    }
    Ok(copies)
}

/// All that a replica drew or was given in messages of edits, as one message. That each state is one
/// of the rule, as a message asks, is known by what the journal tells of itself.
fn handed_on(alloc: Global, replica: &Replica) -> Result<Message, AllocError>
    ensures { IfOk result (λ message. message.content ≡ Edits replica.now.journal) }
{
    let edits = copies(alloc, replica.journal())?;
    Ok(Message::of_edits(replica.rule(), edits))
}

/// The journal of a replica that cleared the cell at the origin.
fn of_one_clear(alloc: Global, rule: Rule) -> Result<Message, Fail> {
    let mut replica = Replica::new(alloc, rule, 1)?;
    replica.draw(EditSpec::Clear(Rect {
        x: 0,
        y: 0,
        width: 1,
        height: 1,
    }))?;
    Ok(handed_on(alloc, &replica)?)
}

/// What another replica shows at the origin, and how many edits it notes, once that journal came.
fn shown_elsewhere(alloc: Global) -> Result<(Write, usize), Fail> {
    let rule = Rule::parse(b"/2/3")?;
    let mut replica = Replica::new(alloc, rule, 2)?;
    replica.take(&of_one_clear(alloc, rule)?)?;
    Ok((replica.get(0, 0), replica.journal().len()))
}

#[test]
fn a_journal_is_handed_on(rt: HostRuntime) -> Result<(), Fail> {
    let (write, edits) = shown_elsewhere(rt.alloc())?;
    assert_eq!(rt; (write.stamp, write.state, edits), (65537, 0, 1));
    Ok(())
}
