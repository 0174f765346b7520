//! The words for turns of patterns.

ghost use Rattle.std.specs.Prelude.{◌≡◌};
ghost use Rattle.std.specs.Str.{bytes_eq};
ghost use Rattle.command_words.specs.Turns.{turn_name, turn_spelled, turns};

use pattern_turns::Turn;

static TURNS: [Turn; 5] = [
    Turn::Left,
    Turn::Right,
    Turn::Half,
    Turn::Mirror,
    Turn::Flip,
];

/// The turn that a word names.
pub fn turn_in(word: &[u8]) -> Option<Turn>
    ensures { result ≡ turn_spelled word.now }
{
    all_turns()
        .iter()
        .copied()
        .find(|turn| is_named(*turn, word))
}

/// All turns, in the order in which the form of a line names them.
fn all_turns() -> &'static [Turn]
    ensures { result.now ≡ turns }
{
    &TURNS
}

/// Whether the word is that of the turn.
fn is_named(turn: Turn, word: &[u8]) -> bool
    ensures { result ≡ bytes_eq word.now (turn_name turn) }
{
    word == name(turn).as_bytes()
}

fn name(turn: Turn) -> &'static str
    ensures { result.now ≡ turn_name turn }
{
    match turn {
        Turn::Left => "left",
        Turn::Right => "right",
        Turn::Half => "half",
        Turn::Mirror => "mirror",
        Turn::Flip => "flip",
    }
}
