//! Undo and redo.

ghost use Rattle.std.specs.Prelude.{◌≡◌};

/// Which of two is taken back.
#[derive(Clone, Copy, Debug, PartialEq, Eq)]
pub enum Way {
    /// The last drawing that was not taken back.
    Undo,
    /// What was taken back last.
    Redo,
}

impl Way {
    ghost use Rattle.drawing_history.specs.Ways.{nothing_text, too_much_text, way_done, way_name};

    /// `undo` or `redo`.
    pub fn name(self) -> &'static str
        ensures { result.now ≡ way_name self }
    {
        match self {
            Way::Undo => "undo",
            Way::Redo => "redo",
        }
    }

    /// `undone` or `redone`: what is said of an edit that takes something back.
    pub fn done(self) -> &'static str
        ensures { result.now ≡ way_done self }
    {
        match self {
            Way::Undo => "undone",
            Way::Redo => "redone",
        }
    }

    /// What is said where nothing can be taken back.
    pub fn nothing(self) -> &'static str
        ensures { result.now ≡ nothing_text self }
    {
        match self {
            Way::Undo => "nothing to undo",
            Way::Redo => "nothing to redo",
        }
    }

    /// What is said of a drawing that changed more cells than are kept.
    pub fn too_much(self) -> &'static str
        ensures { result.now ≡ too_much_text self }
    {
        match self {
            Way::Undo => "too much to undo",
            Way::Redo => "too much to redo",
        }
    }
}
