//! Patterns as SVG.

use crate::texts::GLIDER;
use crate::told::{at, in_form, shown};
use genedit_view::Form;
use std::alloc::AllocError;

#[test]
fn gliders_are_runs(rt: HostRuntime) -> Result<(), AllocError> {
    let want =
        "<svg xmlns=\"http://www.w3.org/2000/svg\" viewBox=\"0 0 3 3\" shape-rendering=\"crispEdges\">\n\
        <path class=\"s0\" fill=\"#303030\" d=\"M0 0h3v3h-3z\"/>\n\
        <path class=\"s1\" fill=\"#ff0000\" d=\"M1 0h1v1h-1zM2 1h1v1h-1zM0 2h3v1h-3z\"/>\n\
        </svg>\n";
    assert_eq!(rt;
        shown(rt.alloc(), &in_form(Form::Svg), GLIDER.as_bytes())?.as_str(),
        want
    );
    Ok(())
}

/// A path for each state that there is, in the plane's coordinates.
#[test]
fn states_have_paths(rt: HostRuntime) -> Result<(), AllocError> {
    let text = "#CXRLE Pos=-2,-1\nx = 5, y = 2, rule = /2/4\nA2CA$2.C!";
    let want =
        "<svg xmlns=\"http://www.w3.org/2000/svg\" viewBox=\"-2 -1 4 2\" shape-rendering=\"crispEdges\">\n\
        <path class=\"s0\" fill=\"#303030\" d=\"M-2 -1h4v2h-4z\"/>\n\
        <path class=\"s1\" fill=\"#ff0000\" d=\"M-2 -1h1v1h-1zM1 -1h1v1h-1z\"/>\n\
        <path class=\"s3\" fill=\"#ffff00\" d=\"M-1 -1h2v1h-2zM0 0h1v1h-1z\"/>\n\
        </svg>\n";
    assert_eq!(rt;
        shown(rt.alloc(), &in_form(Form::Svg), text.as_bytes())?.as_str(),
        want
    );
    Ok(())
}

/// A run goes no further than a window, and a picture of many columns is not cut.
#[test]
fn windows_bound_runs(rt: HostRuntime) -> Result<(), AllocError> {
    let text = "x = 300, y = 1, rule = 23/3/2\n300o!";
    let want =
        "<svg xmlns=\"http://www.w3.org/2000/svg\" viewBox=\"-5 0 205 2\" shape-rendering=\"crispEdges\">\n\
        <path class=\"s0\" fill=\"#303030\" d=\"M-5 0h205v2h-205z\"/>\n\
        <path class=\"s1\" fill=\"#ff0000\" d=\"M0 0h200v1h-200z\"/>\n\
        </svg>\n";
    let options = at(Form::Svg, "-5,0", "205,2");
    assert_eq!(rt;
        shown(rt.alloc(), &options, text.as_bytes())?.as_str(),
        want
    );
    let whole = shown(rt.alloc(), &in_form(Form::Svg), text.as_bytes())?;
    assert!(rt; whole.as_str().contains("viewBox=\"0 0 300 1\""));
    assert!(rt; whole.as_str().contains("M0 0h300v1h-300z\"/>\n</svg>\n"));
    Ok(())
}

/// The widest box that there is.
#[test]
fn widest_boxes_are_drawn(rt: HostRuntime) -> Result<(), AllocError> {
    let text = "#CXRLE Pos=-2147483648,0\nx = 1, y = 1, rule = 23/3/2\no4294967294bo!";
    let picture = shown(rt.alloc(), &in_form(Form::Svg), text.as_bytes())?;
    assert!(rt;
        picture
            .as_str()
            .contains("viewBox=\"-2147483648 0 4294967296 1\"")
    );
    assert!(rt;
        picture
            .as_str()
            .contains("\"M-2147483648 0h1v1h-1zM2147483647 0h1v1h-1z\"")
    );
    Ok(())
}

#[test]
fn nothing_has_a_ground_alone(rt: HostRuntime) -> Result<(), AllocError> {
    let want =
        "<svg xmlns=\"http://www.w3.org/2000/svg\" viewBox=\"0 0 0 0\" shape-rendering=\"crispEdges\">\n\
        <path class=\"s0\" fill=\"#303030\" d=\"M0 0h0v0h-0z\"/>\n\
        </svg>\n";
    assert_eq!(rt;
        shown(
            rt.alloc(),
            &in_form(Form::Svg),
            b"x = 3, y = 3, rule = 23/3/2\n!"
        )?
        .as_str(),
        want
    );
    Ok(())
}
