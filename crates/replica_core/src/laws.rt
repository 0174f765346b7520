//! What holds of replicas, for all edits, and of worlds of them, for all events: the contracts of functions
//! that do nothing.

ghost use Rattle.replica_core.specs.Headline.{Agrees, AnswersAlike, ExportsGreatest, ExportsSameBytes, HasOneEditAStamp, HasOneListOfReplies, HasOneWinner, HoldsGreatest, NeverGoesDown, RefusalsChangeNothing, SendsTexts, WritesSameBytes};
ghost use Rattle.replica_core.specs.Peers.{HoldsWhatItTook, PeersAgree};

/// What holds of every world after every list of events.
pub fn world_laws()
    ensures holds { HoldsGreatest }
    ensures agrees { Agrees }
    ensures bytes { WritesSameBytes }
    ensures exports { ExportsGreatest }
    ensures same_exports { ExportsSameBytes }
    ensures answers { AnswersAlike }
    ensures messages { SendsTexts }
    ensures stamps { HasOneEditAStamp }
    ensures winner { HasOneWinner }
    ensures rises { NeverGoesDown }
    ensures refusals { RefusalsChangeNothing }
    ensures one_list { HasOneListOfReplies }
{}

/// What holds of replicas that exchange messages by any route, without a world: what each holds are the
/// edits that it took, and two that took the same edits agree, in their maps and in their bytes.
pub fn peer_laws()
    ensures holds { HoldsWhatItTook }
    ensures agree { PeersAgree }
{}
