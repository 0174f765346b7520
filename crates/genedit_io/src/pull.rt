//! All that a source gives.

ghost use Rattle.std.specs.Prelude.{IfOk, IfErr};
ghost use Rattle.genedit_io.specs.Runs.{IsLeft, IsReadWhole};

use crate::fault::RunFault;
use devices::Source;
use std::alloc::Global;

/// How many bytes are pulled at once, at most.
const PIECE: usize = 8192;

/// All bytes of a source, in at most so many pulls; the last of them gives none.
///
/// `RunFault::Read` comes only where the source failed, `RunFault::Turns` after as many pulls as are
/// allowed, each of which gave something.
pub fn pull_all<S: Source>(alloc: Global, source: &mut S, turns: u64) -> Result<Vec<u8>, RunFault>
    ensures all { IfOk result (λ text. IsReadWhole turns text.items (S.known source.old) (S.known source.new)) }
    ensures left { IfErr result (λ fault. IsLeft turns fault (S.known source.old) (S.known source.new)) }
{
    let mut text = Vec::new(alloc);
    let mut piece = [0; PIECE];
    for _turn in 0..turns {
        let Ok(count) = source.pull(&mut piece) else {
            return Err(RunFault::Read);
        };
        if count == 0 {
            return Ok(text);
        }
        text.extend_from_slice(&piece[..count])?;
    }
    Err(RunFault::Turns)
}
