//! What the definitions obey, for all cells: the contract of a function that does nothing.

ghost use Rattle.cell_pictures.specs.Laws.{HasOneBox, HasOneRunList, HasRuns};

/// Cells have one list of maximal runs. Two SVGs with one text show the same window, and the same state at
/// each of its places, whatever their rules.
pub fn picture_laws()
    ensures runs { HasRuns }
    ensures only { HasOneRunList }
    ensures svg { HasOneBox }
{}
