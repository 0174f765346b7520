//! Bounds of grids, which are passed over.

use std::alloc::{AllocError, Global};

/// Says that the bounds are passed over that a file of this name tells, if it tells any; and where it was run,
/// what may come of it.
pub fn tell_bounds(
    rt: &impl Eprint,
    alloc: Global,
    name: &str,
    bounds: Option<Vec<u8>>,
    is_run: bool,
) -> Result<(), AllocError> {
    let Some(bounds) = bounds else {
        return Ok(());
    };
    let bounds = String::from_utf8_lossy(alloc, &bounds)?;
    let later = if is_run {
        ", and later generations may differ"
    } else {
        ""
    };
    let bounds = bounds.as_str();
    let _ = eprintln!(rt;
        "warning: {name}: the bounds {bounds} are passed over: cells live on the whole plane{later}"
    );
    Ok(())
}
