// Watches a board while words are given to it, and shows what it has become.
#![tactic(auto)]

pub mod decided;
pub mod picture;
pub mod watch;

pub use decided::{Decided, Decision, Serial};
pub use picture::Picture;
pub use watch::Watch;
