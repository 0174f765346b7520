//! What the definitions obey, for all lines: the contract of a function that does nothing.

ghost use Rattle.client_commands.specs.Laws.{SpellTheSame, ExportTheSame, CountTheSame, CutTheSame, TurnTheSame, HearTheSame, HearPieces, HearInOrder};

/// A client asks for what a script asks of replica 1: at each name that both have, of the same words
/// behind it; and in all, where each line of a client stands beside one of a script that says the
/// same, with the same pattern blocks, the first fault at the same line too. Lines that are heard
/// one by one come to what they come to with their numbers from 1.
pub fn command_laws()
    ensures spelled { SpellTheSame }
    ensures exported { ExportTheSame }
    ensures counted { CountTheSame }
    ensures cut { CutTheSame }
    ensures turned { TurnTheSame }
    ensures heard { HearTheSame }
    ensures pieces { HearPieces }
    ensures in_order { HearInOrder }
{}
