// Tells in plain words what the words of a schedule did to a board.
#![tactic(auto)]

mod changed;
mod ends;
pub mod moment;
pub mod names;
mod search;
mod stack_steps;
pub mod told;

pub use moment::{Moment, Tallies};
pub use names::{item, letter};
pub use told::Told;
