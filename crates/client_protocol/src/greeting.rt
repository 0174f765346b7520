//! The reply to a greeting.

ghost use Rattle.std.specs.Prelude.{◌<◌, IfErr, IfOk};
ghost use Rattle.std.specs.Result.{IsOk};
ghost use Rattle.generations_rule.specs.RuleText.{parsed};
ghost use Rattle.client_protocol.specs.Spelling.{OffersSeat, SpellsGreeting, SpellsSeat};

use generations_rule::{Rule, text_laws};
use std::alloc::{AllocError, Global};

/// What the reply to a greeting says.
#[derive(Clone, Copy, Debug)]
pub enum Greeting {
    /// The number of the client's seat, 1 to 65535, and the board's rule.
    Seat(u16, Rule),
    /// It was refused, by a number of the table of faults that is not 0.
    Refused(u8),
    /// The bytes are no such reply.
    Faulty,
}

/// What the reply to a greeting says: behind a 0 the seat's number in two bytes, how many bytes the rule's
/// text has, and that text, which is the printed form. Memory is wanting only for the reading of a rule.
pub fn greeting_in(alloc: Global, body: &[u8]) -> Result<Greeting, AllocError>
    ensures spelt { IfOk result (SpellsGreeting body.now) }
    ensures want { IfErr result (λ _. OffersSeat body.now) }
{
    match body {
        [number] if *number != 0 => Ok(Greeting::Refused(*number)),
        [0, high, low, size, text @ ..] if usize::from(*size) == text.len() => {
            seat_in(alloc, u16::from_be_bytes([*high, *low]), text)
        }
        _ => Ok(Greeting::Faulty),
    }
}

fn seat_in(alloc: Global, number: u16, text: &[u8]) -> Result<Greeting, AllocError>
    ensures spelt { IfOk result (SpellsSeat number text.now) }
    ensures want { IfErr result (λ _. (0 < number) × IsOk (parsed text.now)) }
{
    text_laws();
    if number == 0 {
        return Ok(Greeting::Faulty);
    }
    let Ok(rule) = Rule::parse(text) else {
        return Ok(Greeting::Faulty);
    };
    let printed = rule.write_text(alloc)?;
    if *printed == *text {
        Ok(Greeting::Seat(number, rule))
    } else {
        Ok(Greeting::Faulty)
    }
}
