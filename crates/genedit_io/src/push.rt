//! All that a run prints.

ghost use Rattle.std.specs.Prelude.{◌≡◌, IfErr};
ghost use Rattle.devices.specs.Sink.{IsPush};
ghost use Rattle.genedit_io.specs.declared.fault.RunFault.TheVariants.{Write};

use crate::fault::RunFault;
use devices::Sink;

/// Pushes all that a run prints, at once; a failed push is `RunFault::Write`.
pub fn push_output<K: Sink>(sink: &mut K, out: &[u8]) -> Result<(), RunFault>
    ensures pushed { IsPush (K.known sink.old) (K.known sink.new) result out.now }
    ensures fault { IfErr result (λ fault. fault ≡ Write) }
{
    match sink.push_all(out) {
        Ok(()) => Ok(()),
        Err(_) => Err(RunFault::Write),
    }
}
