//! An address, and what tells it.

ghost use Rattle.std.specs.Prelude.{◌≡◌, ℕ, IfErr, IfOk};
ghost use Rattle.genedit_serve.specs.Closing.{address_text};
ghost use Rattle.genedit_serve.specs.Serving.{IsUnbound};

use crate::address::Address;
use crate::closing::address_text;
use genedit_io::RunFault;
use std::alloc::Global;

/// Where a server listens, and the lines that tell it.
#[derive(Drop)]
pub(crate) struct Bound {
    pub(crate) address: Address,
    pub(crate) told: Vec<u8>,
}

impl Bound {
    /// An address with its lines. `Read` where nobody can come in, or the system does not tell the listener's port.
    pub(crate) fn of(alloc: Global, address: Address) -> Result<Bound, RunFault>
        ensures told { IfOk result (λ bound. (port : ℕ) × (bound.told.items ≡ address_text address port)) }
        ensures fault { IfErr result IsUnbound }
    {
        let Some(port) = port_of(&address) else {
            return Err(RunFault::Read);
        };
        let told = address_text(alloc, &address, port)?;
        Ok(Bound { address, told })
    }
}

/// The port of the listener; any where only browsers come. None where nobody can come in, or it is not told.
fn port_of(address: &Address) -> Option<u16> {
    match &address.listener {
        Some(listener) => {
            let local = listener.local_addr().ok()?;
            Some(local.port())
        }
        None if address.web.is_some() => Some(0),
        None => None,
    }
}
