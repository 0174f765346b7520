//! What is asked of a picture.

use cell_pictures::{Form, Window};
use generations_rule::Rule;

/// What is asked of a picture.
#[derive(Clone, Copy, Debug, PartialEq, Eq)]
pub struct ViewOptions {
    /// How it is drawn.
    pub form: Form,
    /// Which part of the plane; else the least that shows all cells.
    pub window: Option<Window>,
    /// So many generations later; else as the text has it.
    pub generation: Option<u32>,
    /// Under this rule; else under that of the text.
    pub rule: Option<Rule>,
}
