//! What bytes are pulled from.

ghost use Rattle.std.specs.Prelude.{◌≤◌, length, IfOk};
ghost use Rattle.devices.specs.Source.{IsPull, KnownSource};

/// A device failed.
#[derive(Clone, Copy, Debug, PartialEq, Eq)]
pub struct Failed;

/// What bytes are pulled from.
pub trait Source {
    /// What is known of it: how often it was pulled, how many pulls met its end, how often it failed,
    /// and the bytes that are still to come.
    ghost known: { Self → KnownSource };

    /// Fills the front of a piece and says how many bytes it gave: 0 only at the end, or for an
    /// empty piece. Each pull is counted, each that meets the end, and each failure.
    fn pull(&mut self, piece: &mut [u8]) -> Result<usize, Failed>
        ensures within { IfOk result (λ n. n ≤ length piece.new) }
        ensures pulled { IsPull (known self.old) (known self.new) result piece.new };
}
