//! Lines that tell a refusal.

ghost use Rattle.std.specs.Prelude.{◌≡◌, OnErr, OnOk};
ghost use mathlib.Core.List.{IsPrefix};
ghost use Rattle.export.specs.declared.fault.ExportFault.TheVariants as exports;
ghost use Rattle.told_generations.specs.Refusals.{IsRefusalLine};

use export::ExportFault;
use genedit_lib::push_line;
use replica_core::{Fault, Reply, Stop};
use std::alloc::Global;

/// The refusal of a generation; a want is none.
pub(crate) fn push_refusal(alloc: Global, out: &mut Vec<u8>, fault: ExportFault) -> Result<(), Stop>
    ensures told { OnOk result (IsRefusalLine fault out.old.items out.new.items) }
    ensures kept { OnErr result (IsPrefix out.old.items out.new.items) }
    ensures full { result ≡ Err Stop.StoreFull → (out.new.items ≡ out.old.items) × (fault ≡ exports.StoreFull) }
{
    match fault {
        ExportFault::Memory => Err(Stop::Memory),
        ExportFault::StoreFull => Err(Stop::StoreFull),
        refusal => {
            push_line(alloc, out, &Reply::Refused(Fault::from(refusal)))?;
            Ok(())
        }
    }
}
