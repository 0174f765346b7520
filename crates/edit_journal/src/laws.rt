//! What a journal obeys, for all edits: the contract of a function that does nothing.

ghost use Rattle.edit_journal.specs.Laws.{NotesEdits};

/// A noted journal has the edits of both lists, each once if it had each once, and noting a list
/// again changes nothing.
pub fn journal_laws()
    ensures { NotesEdits }
{}
