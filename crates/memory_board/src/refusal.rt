//! Refusals of requests.

use replica_core::Fault;
use std::alloc::AllocError;

/// A request is refused, by this number of the table of faults.
#[derive(Clone, Copy, Debug)]
pub(crate) struct Refusal {
    pub(crate) number: u8,
}

/// That there was no memory: nothing was done.
impl From<AllocError> for Refusal {
    ghost use Rattle.std.specs.Prelude.{◌≡◌};

    ghost from_gives = { λ _ refusal. refusal.number ≡ 255 };

    fn from(_error: AllocError) -> Refusal {
        Refusal { number: 255 }
    }
}

impl From<Fault> for Refusal {
    ghost use Rattle.std.specs.Prelude.{◌≡◌};
    ghost use Rattle.replica_core.specs.Fault.{replica_fault_number};

    ghost from_gives = { λ fault refusal. refusal.number ≡ replica_fault_number fault };

    fn from(fault: Fault) -> Refusal {
        Refusal {
            number: fault.number(),
        }
    }
}
