//! What joins of planes obey, for all maps: the contract of a function that does nothing.

ghost use Rattle.edit_stamps.specs.Laws.{IsLatticeOfMaps, IsLeastUpperBound};
ghost use Rattle.tree_join.specs.Laws.{JoinKeepsStates};

use edit_stamps::write_laws;

/// The join of two maps is their least upper bound, as RR-7506 asks of a state-based object; it is
/// commutative, associative and idempotent; and a map is at most another exactly where joining them
/// gives the other. States stay below a number that those of both maps are below.
pub fn join_laws()
    ensures lattice { IsLatticeOfMaps }
    ensures join { IsLeastUpperBound }
    ensures states { JoinKeepsStates }
{
    write_laws();
}
