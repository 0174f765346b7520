//! Any generation of a plane, as a text in Golly's multi-state RLE.
//!
//! A plane's states are run under a rule, cell by cell as far as a caller can tell, and the cells that
//! are not dead then are written, or those in a window, or they are counted.
#![tactic(auto)]

mod asking;
mod by_tiles;
mod counting;
mod exporting;
mod fault;
mod kept;
mod laws;

pub use asking::{Count, Cut, count_on, cut_by_tiles, cut_on, cut_out, universe_on};
pub use by_tiles::Listed;
pub use exporting::{
    LAST_GENERATION, cells_at, cells_of, cells_within, engine_at, export, export_by_tiles,
    export_in_room, export_within,
};
pub use fault::ExportFault;
pub use kept::{export_next, export_on};
pub use laws::export_laws;
