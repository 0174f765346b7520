//! What is wrong with a rule text.

ghost use Rattle.std.specs.Prelude.{◌≡◌};

use std::error::Error;
use std::fmt;

/// What is wrong with a rule text; of several faults the first of this list is told.
#[derive(Clone, Copy, Debug, PartialEq, Eq)]
pub enum RuleFault {
    /// The text has not exactly two slashes.
    Slashes,
    /// The first byte, from the left, that may not stand in its part: survival counts are digits 0
    /// to 8, birth counts 1 to 8, and the number of states has decimal digits. The place is the
    /// byte's index in the text, from 0.
    Digit(u64),
    /// The number of states has not one to three digits, or is not 2 to 256.
    States,
}

impl RuleFault {
    ghost use Rattle.generations_rule.specs.RuleFault.{rule_fault_number, rule_fault_place};

    /// Its number in the table of faults.
    pub fn number(self) -> u8
        ensures { result ≡ rule_fault_number self }
    {
        match self {
            RuleFault::Slashes => 1,
            RuleFault::Digit(_) => 2,
            RuleFault::States => 3,
        }
    }

    /// The place in the text that it names.
    pub fn place(self) -> Option<u64>
        ensures { result ≡ rule_fault_place self }
    {
        match self {
            RuleFault::Digit(place) => Some(place),
            RuleFault::Slashes | RuleFault::States => None,
        }
    }
}

/// Its name, with the place behind a blank where it has one.
impl fmt::Display for RuleFault {
    ghost use Rattle.std.specs.Prelude.{Some};
    ghost use Rattle.generations_rule.specs.RuleFault.{rule_fault_text};

    ghost output = { λ fault. Some (rule_fault_text fault) };

    fn fmt<W: fmt::Write>(&self, f: &mut fmt::Formatter<W>) -> fmt::Result {
        match self {
            RuleFault::Slashes => write!(f, "Slashes"),
            RuleFault::Digit(place) => write!(f, "Digit {place}"),
            RuleFault::States => write!(f, "States"),
        }
    }
}

impl Error for RuleFault {}
