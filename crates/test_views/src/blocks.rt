//! Patterns as half blocks.

use crate::texts::GLIDER;
use crate::told::{at, in_form, shown};
use genedit_view::Form;
use std::alloc::{AllocError, Global};

/// A text in which letters stand for halves of characters, two for each: `d` a dead cell, `l` a live one,
/// `y` one in the last of three states, `n` none.
fn blocks(alloc: Global, halves: &str) -> Result<String, AllocError> {
    let mut text = String::new(alloc);
    let mut is_upper = true;
    for half in halves.chars() {
        if half == '|' {
            text.push_str("\x1b[0m\n")?;
        } else if is_upper {
            text.push_str("\x1b[38;2;")?;
            text.push_str(parts(half))?;
            is_upper = false;
        } else {
            text.push_str(if half == 'n' { ";49" } else { ";48;2;" })?;
            text.push_str(parts(half))?;
            text.push_str("m\u{2580}")?;
            is_upper = true;
        }
    }
    Ok(text)
}

fn parts(half: char) -> &'static str {
    match half {
        'd' => "48;48;48",
        'l' => "255;0;0",
        'y' => "255;255;0",
        _ => "",
    }
}

#[test]
fn odd_heights_end_in_halves(rt: HostRuntime) -> Result<(), AllocError> {
    let alloc = rt.alloc();
    let want = blocks(alloc, "ddlddl|lnlnln|")?;
    let picture = shown(alloc, &in_form(Form::HalfBlocks), GLIDER.as_bytes())?;
    assert_eq!(rt; picture.as_str(), want.as_str());
    Ok(())
}

#[test]
fn even_heights_are_whole(rt: HostRuntime) -> Result<(), AllocError> {
    let alloc = rt.alloc();
    let want = blocks(alloc, "dlld|")?;
    let picture = shown(
        alloc,
        &in_form(Form::HalfBlocks),
        b"x = 2, y = 2, rule = 23/3/2\nbo$o!",
    )?;
    assert_eq!(rt; picture.as_str(), want.as_str());
    Ok(())
}

/// Below an odd window cells stand, which its last row does not show.
#[test]
fn windows_end_in_halves(rt: HostRuntime) -> Result<(), AllocError> {
    let alloc = rt.alloc();
    let want = blocks(alloc, "dnln|")?;
    let picture = shown(
        alloc,
        &at(Form::HalfBlocks, "1,1", "2,1"),
        GLIDER.as_bytes(),
    )?;
    assert_eq!(rt; picture.as_str(), want.as_str());
    Ok(())
}

#[test]
fn three_states_have_three_colours(rt: HostRuntime) -> Result<(), AllocError> {
    let alloc = rt.alloc();
    let want = blocks(alloc, "ldyydy|")?;
    let picture = shown(
        alloc,
        &in_form(Form::HalfBlocks),
        b"x = 3, y = 2, rule = /2/3\nAB$.2B!",
    )?;
    assert_eq!(rt; picture.as_str(), want.as_str());
    Ok(())
}

#[test]
fn high_boxes_are_cut(rt: HostRuntime) -> Result<(), AllocError> {
    let alloc = rt.alloc();
    let mut want = blocks(alloc, "ld|")?;
    let dead = blocks(alloc, "dd|")?;
    for _line in 0..31 {
        want.push_str(dead.as_str())?;
    }
    want.push_str("cut: 1 by 65\n")?;
    let picture = shown(
        alloc,
        &in_form(Form::HalfBlocks),
        b"x = 1, y = 65, rule = 23/3/2\no64$o!",
    )?;
    assert_eq!(rt; picture.as_str(), want.as_str());
    Ok(())
}
