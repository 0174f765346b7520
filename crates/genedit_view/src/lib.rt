//! Files of cells and states as pictures, from a source's bytes to a sink's.
#![tactic(auto)]

mod charting;
mod drawn;
mod fault;
mod file;
mod later;
mod macrocell;
mod options;
mod pattern;
mod period;
mod places;
mod rule;
mod samples;
mod seen;
mod shown;
mod universe;
mod viewing;
mod words;

pub use cell_pictures::{BufferedSink, Form, Window};
pub use charting::{chart, chart_range};
pub use fault::ViewFault;
pub use options::ViewOptions;
pub use period::{FoundPeriod, PeriodSearch, find_period};
pub use samples::{ToldSamples, find_samples};
pub use seen::SeenCells;
pub use shown::see;
pub use universe::{SeenUniverse, see_universe};
pub use viewing::{view, view_within};
pub use words::{WindowFault, window_of};
