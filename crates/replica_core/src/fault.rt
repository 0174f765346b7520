//! Why a replica, or a world of replicas, refuses.

ghost use Rattle.std.specs.Prelude.{◌≡◌};

use crate::event::Stop;
use delta_exchange::ReadFault;
use edit_stamps::EditFault;
use export::ExportFault;
use stamped_tree::StoreFault;
use std::alloc::AllocError;
use std::error::Error;
use std::fmt;

/// Why a replica, or a world of replicas, refuses.
#[derive(Clone, Copy, Debug, PartialEq, Eq)]
pub enum Fault {
    /// The edit's own refusal; never its want of memory, which is `Memory`.
    Edit(EditFault),
    /// The store of the replica, of the map that it reads, or of the universe that it runs, holds as many
    /// squares as it has room for.
    StoreFull,
    /// The bytes are no message; never that the rule is another one, that the store is full, or want of
    /// memory, which are faults of their own here.
    Read(ReadFault),
    /// The generation is not exported; never that the store is full, or want of memory, which are faults
    /// of their own here.
    Export(ExportFault),
    /// The message has another rule than the replica.
    OtherRule,
    /// The greatest counter of the plane is the last one, 2^48 - 1.
    ClockFull,
    /// The journal has no such entry.
    NoSuchEdit,
    /// There is no replica of this number.
    NoReplica,
    /// There is no message of this number.
    NoMessage,
    /// The system refused memory.
    Memory,
}

impl Fault {
    ghost use Rattle.replica_core.specs.Fault.{replica_fault_number, replica_fault_text, stop_of};

    /// Its number in the table of faults; 255 for want of memory.
    pub fn number(self) -> u8
        ensures { result ≡ replica_fault_number self }
    {
        match self {
            Fault::Edit(fault) => fault.number(),
            Fault::StoreFull => 13,
            Fault::Read(fault) => fault.number(),
            Fault::Export(fault) => fault.number(),
            Fault::OtherRule => 16,
            Fault::ClockFull => 24,
            Fault::NoSuchEdit => 25,
            Fault::NoReplica => 26,
            Fault::NoMessage => 27,
            Fault::Memory => 255,
        }
    }

    /// Its name in the table of faults.
    pub fn name(self) -> &'static str
        ensures { result.now ≡ replica_fault_text self }
    {
        match self {
            Fault::Edit(fault) => fault.name(),
            Fault::StoreFull => "StoreFull",
            Fault::Read(fault) => fault.name(),
            Fault::Export(fault) => fault.name(),
            Fault::OtherRule => "OtherRule",
            Fault::ClockFull => "ClockFull",
            Fault::NoSuchEdit => "NoSuchEdit",
            Fault::NoReplica => "NoReplica",
            Fault::NoMessage => "NoMessage",
            Fault::Memory => "Memory",
        }
    }

    /// Why a list of events stops, where this is no refusal but a want.
    pub(crate) fn stop(self) -> Option<Stop>
        ensures { result ≡ stop_of self }
    {
        match self {
            Fault::Memory => Some(Stop::Memory),
            Fault::StoreFull => Some(Stop::StoreFull),
            _ => None,
        }
    }
}

/// Its name.
impl fmt::Display for Fault {
    ghost use Rattle.std.specs.Prelude.{Some};
    ghost use Rattle.replica_core.specs.Fault.{replica_fault_text};

    ghost output = { λ fault. Some (replica_fault_text fault) };

    fn fmt<W: fmt::Write>(&self, f: &mut fmt::Formatter<W>) -> fmt::Result {
        f.write_str(self.name())
    }
}

impl Error for Fault {}

impl From<AllocError> for Fault {
    ghost use Rattle.std.specs.Prelude.{◌≡◌};
    ghost use Rattle.replica_core.specs.declared.fault.Fault.TheVariants.{Memory};

    ghost from_gives = { λ _ fault. fault ≡ Memory };

    fn from(_error: AllocError) -> Fault {
        Fault::Memory
    }
}

impl From<StoreFault> for Fault {
    ghost use Rattle.std.specs.Prelude.{◌≡◌};
    ghost use Rattle.replica_core.specs.Fault.{fault_of_store};

    ghost from_gives = { λ from fault. fault ≡ fault_of_store from };

    fn from(fault: StoreFault) -> Fault {
        match fault {
            StoreFault::StoreFull => Fault::StoreFull,
            StoreFault::Memory => Fault::Memory,
        }
    }
}

impl From<EditFault> for Fault {
    ghost use Rattle.std.specs.Prelude.{◌≡◌};
    ghost use Rattle.replica_core.specs.Fault.{fault_of_edit};

    ghost from_gives = { λ from fault. fault ≡ fault_of_edit from };

    fn from(fault: EditFault) -> Fault {
        match fault {
            EditFault::Memory => Fault::Memory,
            refusal => Fault::Edit(refusal),
        }
    }
}

impl From<ReadFault> for Fault {
    ghost use Rattle.std.specs.Prelude.{◌≡◌};
    ghost use Rattle.replica_core.specs.Fault.{fault_of_read};

    ghost from_gives = { λ from fault. fault ≡ fault_of_read from };

    fn from(fault: ReadFault) -> Fault {
        match fault {
            ReadFault::Memory => Fault::Memory,
            ReadFault::StoreFull => Fault::StoreFull,
            ReadFault::OtherRule => Fault::OtherRule,
            refusal => Fault::Read(refusal),
        }
    }
}

impl From<ExportFault> for Fault {
    ghost use Rattle.std.specs.Prelude.{◌≡◌};
    ghost use Rattle.replica_core.specs.Fault.{fault_of_export};

    ghost from_gives = { λ from fault. fault ≡ fault_of_export from };

    fn from(fault: ExportFault) -> Fault {
        match fault {
            ExportFault::Memory => Fault::Memory,
            ExportFault::StoreFull => Fault::StoreFull,
            refusal => Fault::Export(refusal),
        }
    }
}
