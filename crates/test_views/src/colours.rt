//! The colours of states, as Golly shows them.

use cell_pictures::colour_of;
use std::alloc::AllocError;

/// Numbers of states, states, and how much green is in their colours.
static GREENS: [(u16, u8, u8); 12] = [
    (2, 1, 0),
    (3, 1, 0),
    (3, 2, 255),
    (4, 2, 128),
    (4, 3, 255),
    (12, 2, 26),
    (12, 6, 128),
    (12, 11, 255),
    (25, 24, 255),
    (256, 1, 0),
    (256, 128, 128),
    (256, 255, 255),
];

#[test]
fn live_cells_go_from_red_to_yellow(rt: HostRuntime) -> Result<(), AllocError> {
    for (states, state, green) in GREENS {
        let colour = colour_of(states, state);
        assert_eq!(rt; (colour.red, colour.green, colour.blue), (255, green, 0));
    }
    Ok(())
}

#[test]
fn dead_cells_are_grey(rt: HostRuntime) -> Result<(), AllocError> {
    let colour = colour_of(2, 0);
    assert_eq!(rt; (colour.red, colour.green, colour.blue), (48, 48, 48));
    Ok(())
}
