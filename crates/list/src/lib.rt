// The steps of insert, delete and contains: a search along an ordered list, and the changes at the place where it ends.
#![tactic(auto)]

mod changes;
mod ends;
mod places;
mod search;
mod seek;

pub use changes::{link_fresh, mark_cell, remove_cell};
pub use search::search_step;
