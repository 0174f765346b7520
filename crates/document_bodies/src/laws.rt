//! What bodies and rising counters obey: the contracts of functions that do nothing.

ghost use Rattle.document_bodies.specs.Bodies.{AreBodyLaws};
ghost use Rattle.document_bodies.specs.Counters.{AreCounterLaws};
ghost use Rattle.document_bodies.specs.Newest.{AreNewestLaws};

/// A document has one list of bodies, and those of different documents are different. The first of them
/// are those of its first edits. Each is short enough for a record and for a frame.
pub fn body_laws()
    ensures laws { AreBodyLaws }
{}

/// Where each edit's counter is above all that its replica had before, no two have one stamp; and the
/// counters that see the stamps of edits in turn are the newest of these.
pub fn newest_laws()
    ensures laws { AreNewestLaws }
    ensures counters { AreCounterLaws }
{}
