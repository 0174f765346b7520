//! Greetings and farewells.

ghost use Rattle.std.specs.Prelude.{◌↔◌, IsTrue, []};
ghost use Rattle.board_client.specs.Greeting.{IsGreeting, IsGreetingOnce, IsGreetingRefusedForAMoment, IsLeaving, bye_request};
ghost use Rattle.board_client.specs.Hearing.{IsSaidOrWanting};
ghost use Rattle.board_client.specs.Pushing.{IsAnswering};

use crate::fault::ClientFault;
use crate::pushing::Pushing;
use crate::server::Server;
use crate::tries::{TRIES_MORE, pause};
use client_protocol::{Asking, Greeting, greeting_in, request_body};
use devices::{Sink, Source};
use std::time::Clock;

impl<'a, C: Clock, S: Source + Drop, K: Sink + Drop> Server<'a, C, S, K> {
    /// Says a greeting, and hears the seat's number and the board's rule, or a refusal. Where the board had no
    /// memory for its reply the greeting is said again some milliseconds later, ten times in all. What is heard
    /// is never `Greeting::Faulty`: that is `NoReply`.
    pub fn greet(&mut self) -> Result<Greeting, ClientFault>
        ensures { IsGreeting self.old self.new result }
    {
        for _tried in 0..TRIES_MORE {
            let greeting = match self.greet_once() {
                Ok(greeting) => greeting,
                Err(fault) => return Err(fault),
            };
            if !is_brief(&greeting) {
                return Ok(greeting);
            }
            pause(self.clock);
        }
        self.greet_once()
    }

    fn greet_once(&mut self) -> Result<Greeting, ClientFault>
        ensures { IsGreetingOnce self.old self.new result }
    {
        let Ok(request) = request_body(self.alloc, Asking::Hello) else {
            return Err(ClientFault::Memory);
        };
        let reply = match self.ask(&request) {
            Ok(reply) => reply,
            Err(fault) => return Err(fault),
        };
        match greeting_in(self.alloc, &reply) {
            Ok(Greeting::Faulty) => Err(ClientFault::NoReply),
            Ok(greeting) => Ok(greeting),
            Err(_) => Err(ClientFault::Memory),
        }
    }

    /// Says farewell, and hears the answer. Nothing is said on the line after that.
    pub fn leave(&mut self) -> Result<Pushing, ClientFault>
        ensures { IsLeaving self.old self.new result }
    {
        let Ok(request) = request_body(self.alloc, Asking::Bye) else {
            return Err(ClientFault::Memory);
        };
        self.push_once(&request)
    }

    /// Says farewell where a reply is still to come, which is heard before `hear_farewell`. Nothing is said on
    /// the line after that.
    pub fn say_farewell(&mut self) -> Result<(), ClientFault>
        ensures { IsSaidOrWanting bye_request self.old self.new result }
    {
        match request_body(self.alloc, Asking::Bye) {
            Ok(request) => self.say(&request),
            Err(_) => Err(ClientFault::Memory),
        }
    }

    /// Hears the answer to a farewell that was said.
    pub fn hear_farewell(&mut self) -> Result<Pushing, ClientFault>
        ensures { IsAnswering [] self.old self.new result }
    {
        self.hear_answer()
    }
}

/// Whether a greeting was refused for a moment: 255, where memory was wanted.
fn is_brief(greeting: &Greeting) -> bool
    ensures { IsTrue result ↔ IsGreetingRefusedForAMoment greeting.now }
{
    match greeting {
        Greeting::Refused(number) => *number == 255,
        Greeting::Seat(_, _) | Greeting::Faulty => false,
    }
}
