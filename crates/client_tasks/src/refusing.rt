//! Refusals of what is opened.

ghost use Rattle.genedit_lib.specs.Output.{refused_text, reply_line};
ghost use Rattle.multistate_rle.specs.RleFault.{text_fault_number, text_fault_text};
ghost use Rattle.replica_core.specs.declared.event.Reply.TheVariants as reply;
ghost use Rattle.std.specs.Prelude.{◌≡◌, ◌++◌, IfOk, codes};
ghost use Rattle.client_session.specs.declared.outcome.Outcome.TheVariants.{Refused};
ghost use Rattle.client_session.specs.Moment.{IsPrinted};
ghost use Rattle.opened_files.specs.Macrocells.{macrocell_refusal};

use client_session::{Client, CommandFault, Outcome};
use devices::{Sink, Source};
use genedit_lib::{push_line, push_text, text_refusal};
use macrocell_text::MacrocellFault;
use multistate_rle::RleFault;
use opened_files::macrocell_refusal;
use replica_core::{Fault, Reply};
use std::alloc::{AllocError, Global};
use std::time::Clock;

/// Prints a refusal as a replica's.
pub(crate) fn refuse<C: Clock, S: Source + Drop, K: Sink + Drop>(
    client: &mut Client<'_, C, S, K>,
    fault: Fault,
) -> Result<Outcome, CommandFault>
    ensures { IsPrinted Refused (reply_line (reply.Refused fault)) client.old client.new result }
{
    let line = line_of(client.alloc(), fault)?;
    tell_refusal(client, &line)
}

/// Prints the refusal of a text that is no pattern.
pub(crate) fn refuse_text<C: Clock, S: Source + Drop, K: Sink + Drop>(
    client: &mut Client<'_, C, S, K>,
    fault: RleFault,
) -> Result<Outcome, CommandFault>
    ensures { IsPrinted Refused (refused_text (text_fault_number fault) (text_fault_text fault) ++ codes "\n") client.old client.new result }
{
    let line = text_line_of(client.alloc(), fault)?;
    tell_refusal(client, &line)
}

/// Prints the refusal of a text that is no macrocell.
pub(crate) fn refuse_macrocell<C: Clock, S: Source + Drop, K: Sink + Drop>(
    client: &mut Client<'_, C, S, K>,
    fault: MacrocellFault,
) -> Result<Outcome, CommandFault>
    ensures { IsPrinted Refused (macrocell_refusal fault) client.old client.new result }
{
    let line = macrocell_refusal(client.alloc(), fault)?;
    tell_refusal(client, &line)
}

fn tell_refusal<C: Clock, S: Source + Drop, K: Sink + Drop>(
    client: &mut Client<'_, C, S, K>,
    line: &[u8],
) -> Result<Outcome, CommandFault>
    ensures { IsPrinted Refused line.now client.old client.new result }
{
    client.print(line)?;
    Ok(Outcome::Refused)
}

/// The line of a replica's refusal.
fn line_of(alloc: Global, fault: Fault) -> Result<Vec<u8>, AllocError>
    ensures { IfOk result (λ line. line.items ≡ reply_line (reply.Refused fault)) }
{
    let mut line = Vec::new(alloc);
    push_line(alloc, &mut line, &Reply::Refused(fault))?;
    Ok(line)
}

/// The line of the refusal of a text that is no pattern.
fn text_line_of(alloc: Global, fault: RleFault) -> Result<Vec<u8>, AllocError>
    ensures { IfOk result (λ line. line.items ≡ refused_text (text_fault_number fault) (text_fault_text fault) ++ codes "\n") }
{
    let text = text_refusal(alloc, fault)?;
    let mut line = Vec::new(alloc);
    push_text(&mut line, &text)?;
    Ok(line)
}
