//! What macrocells obey, for all squares: contracts of functions that do nothing.

ghost use Rattle.macrocell_text.specs.Laws.{FindsAllLiveCells, FindsOnlyLiveCells, ListsEachPlaceOnce, ListsNoPlaceTwice, ListsOnlyMap, ListsWholeMap, ReadsNumbersBack, ReadsRowsBack, TellsSquares, WritesNumbers, WritesRows};
ghost use Rattle.macrocell_text.specs.WrittenTexts.{HasOneMap, HasOneRule, ReadsMacrocellBack, ReadsUniverseBack};

/// The line that the writer writes of a square is read as that square: by its quarters, as the square whose quarters
/// its numbers stand for; of level 3 by its rows, where states are dead or live.
pub fn line_laws()
    ensures written_numbers { WritesNumbers }
    ensures numbers { ReadsNumbersBack }
    ensures written_rows { WritesRows }
    ensures rows { ReadsRowsBack }
{}

/// The squares that a text tells have four quarters of one level each; and the live cells that are found of such a
/// square are its states that are not 0, each at its column and row.
pub fn cell_laws()
    ensures squares { TellsSquares }
    ensures only { FindsOnlyLiveCells }
    ensures all { FindsAllLiveCells }
{}

/// The cells that are listed of a text are those of its map that are not dead, each with its state, and each place once.
pub fn map_laws()
    ensures only { ListsOnlyMap }
    ensures whole { ListsWholeMap }
    ensures no_place_twice { ListsNoPlaceTwice }
    ensures once { ListsEachPlaceOnce }
{}

/// The macrocell that is written of a rule, a generation and a map is read as the rule's name at its place, that
/// generation and that map; so what differs in one of them is written otherwise.
pub fn text_laws()
    ensures back { ReadsMacrocellBack }
    ensures universe { ReadsUniverseBack }
    ensures one_map { HasOneMap }
    ensures one_rule { HasOneRule }
{}
