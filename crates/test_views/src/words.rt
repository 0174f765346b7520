//! The words that ask for a window.

use genedit_view::{WindowFault, window_of};
use std::alloc::AllocError;

/// Words that ask for no window, and why.
static NONE: [(&str, &str, WindowFault); 14] = [
    ("", "1,1", WindowFault::Corner),
    ("0", "1,1", WindowFault::Corner),
    ("0x0", "1,1", WindowFault::Corner),
    ("0,0", "1", WindowFault::Sides),
    ("0,0", "1,1,1", WindowFault::Sides),
    ("0,0", "1x1x1", WindowFault::Sides),
    ("0,0", "-1,1", WindowFault::Sides),
    ("0,0", "0,1", WindowFault::Outside),
    ("0,0", "1x0", WindowFault::Outside),
    ("2147483648,0", "1,1", WindowFault::Corner),
    ("2147483647,0", "2,1", WindowFault::Outside),
    ("0,-2147483649", "1,1", WindowFault::Corner),
    ("0,0", "1,4294967297", WindowFault::Sides),
    ("0,x", "1,1", WindowFault::Corner),
];

#[test]
fn others_ask_for_none(rt: HostRuntime) -> Result<(), AllocError> {
    for (at, size, why) in NONE {
        assert!(rt;
            window_of(at.as_bytes(), size.as_bytes()).err() == Some(why),
            "{at} {size}"
        );
    }
    Ok(())
}

#[test]
fn windows_are_read(rt: HostRuntime) {
    for size in ["5,6", "5x6", "5X6"] {
        match window_of(b"-3,4", size.as_bytes()) {
            Err(_) => assert!(rt; false, "two words ask for a window"),
            Ok(window) => {
                assert_eq!(rt; (window.x(), window.y()), (-3, 4));
                assert_eq!(rt; (window.width(), window.height()), (5, 6));
            }
        }
    }
    assert!(rt; window_of(b"-2147483648,-2147483648", b"4294967296,4294967296").is_ok());
}
