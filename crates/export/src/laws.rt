//! What exports, cuts and counts obey: the contract of a function that does nothing.

ghost use Rattle.export.specs.Laws.{CountsCells, CutsEverything, HasOneCount, HasOneCut, HasOneExport};

/// A map has one export at each generation: the same bytes, or the same refusal, whatever stamps its
/// writes have; so it has one cut by each window, which is the export where the window shows all, and one count.
/// What is listed is as many cells as are counted, so that an export is refused as too many exactly where its cells
/// are more than the limit.
pub fn export_laws()
    ensures one { HasOneExport }
    ensures one_cut { HasOneCut }
    ensures one_count { HasOneCount }
    ensures everything { CutsEverything }
    ensures counts { CountsCells }
{}
