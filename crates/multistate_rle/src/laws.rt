//! What the definitions obey, for all cells and texts: the contracts of functions that do nothing.

ghost use Rattle.multistate_rle.specs.Laws.{HasTokens, HasOneTokenList, CellsHaveOneText, HasLetters, ReadsSpellings, ReadsTexts, RefusesFaults, RefusesWithoutHeader, ReadsExactly, RefusesExactly, ReadsBodiesBack, ReadsBoxesBack, ReadsBack};

/// A finite set of nonzero cells, as its sorted list, has a canonical token list, and only one; so
/// a rule, a generation and cells have only one text. The letters of a state in it are those of
/// Golly's help.
pub fn token_laws()
    ensures tokens { HasTokens }
    ensures only { HasOneTokenList }
    ensures text { CellsHaveOneText }
    ensures letters { HasLetters }
{}

/// A text that spells tokens, with any digits for their counts, and with blanks, line ends and
/// comment lines anywhere, is read as what the tokens draw, or refused for the first faulty one, or
/// for want of a header; no other text is read, or refused. And what is written of cells is read as
/// the cells, with their box, position and generation.
pub fn reading_laws()
    ensures spellings { ReadsSpellings }
    ensures whole { ReadsTexts }
    ensures faults { RefusesFaults }
    ensures headers { RefusesWithoutHeader }
    ensures read { ReadsExactly }
    ensures refused { RefusesExactly }
    ensures bodies { ReadsBodiesBack }
    ensures texts { ReadsBoxesBack }
    ensures back { ReadsBack }
{}
