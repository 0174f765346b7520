//! What is told of later generations of what a replica holds, beyond the single ones that it exports and counts itself:
//! the period of what stands at a generation, how many cells there are at each of several, and what stands at one as a
//! macrocell.
#![tactic(auto)]

mod album;
mod counts;
mod film;
mod film_form;
mod film_texts;
mod lines;
mod macrocell;
mod period;

pub use album::{Album, Put};
pub use counts::push_counts;
pub use film::push_film;
pub use film_form::{FilmForm, FilmPlan};
pub use macrocell::macrocell_at;
pub use period::push_period;
