//! What taking back obeys: the contract of a function that does nothing.

ghost use Rattle.drawing_history.specs.Laws.{RedoesDrawing, RedoesStroke, UndoesDrawing, UndoesStroke};

/// Where a drawing is taken back, each place whose write is still the drawing's shows again what it showed
/// before, and no other place changes. Taking back is a drawing itself: taken back the same way with nobody
/// drawing between, each place shows what it showed before both. This holds of one edit, and of a drawing of
/// many edits that write no place in common.
pub fn history_laws()
    ensures undo { UndoesStroke }
    ensures redo { RedoesStroke }
    ensures undo_all { UndoesDrawing }
    ensures redo_all { RedoesDrawing }
{}
