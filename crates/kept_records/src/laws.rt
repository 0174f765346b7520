//! What records obey: the contract of a function that does nothing.

ghost use Rattle.kept_records.specs.Laws.{AreRecordLaws};

/// Bytes are read in one way, and what was written is read. Where bytes only got less, or only greater, or
/// end too early, the first of the bodies are read, and all that were whole among them; so any one byte
/// that changed is told.
pub fn record_laws()
    ensures laws { AreRecordLaws }
{}
