//! The colours of states.

ghost use Rattle.std.specs.Prelude.{◌≡◌, ◌≢◌, ◌<◌, ◌≤◌};
ghost use Rattle.cell_pictures.specs.Colour.{colour_of, green_of, dead_colour, live_colour};

/// A colour by its three parts, of 24 bits together.
#[derive(Clone, Copy, Debug, PartialEq, Eq)]
pub struct Colour {
    pub red: u8,
    pub green: u8,
    pub blue: u8,
}

/// The colour of a state under a rule of so many states, as Golly shows it: a dead cell is dark grey,
/// a live one red, and the dying states go on to yellow in even steps. A state that the rule does not
/// have is yellow.
pub fn colour_of(states: u16, state: u8) -> Colour
    ensures { result ≡ colour_of states state }
{
    if state == 0 {
        return Colour {
            red: 48,
            green: 48,
            blue: 48,
        };
    }
    Colour {
        red: 255,
        green: green_of(states, state),
        blue: 0,
    }
}

/// How much green there is in the colour of a state that is not dead.
fn green_of(states: u16, state: u8) -> u8
    requires { state ≢ 0 }
    ensures { result ≡ green_of states state }
{
    if states <= 2 {
        return 0;
    }
    let steps = u32::from(states) - 2;
    let green = (510 * (u32::from(state) - 1) + steps) / (2 * steps);
    green.min(255) as u8
}
