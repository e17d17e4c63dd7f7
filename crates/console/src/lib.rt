// What the commands of the program share: the schedule they are given, how its words are given and shown, how they end.
#![tactic(auto)]

pub mod asked;
pub mod given;
pub mod job;
pub mod player;
pub mod source;
pub mod stop;

pub use asked::{Answered, Asked, Who};
pub use given::Given;
pub use job::{sessions_of, with_schedule};
pub use player::{MOST_STEPS, Player};
pub use stop::{Stop, refused, tell, unknown};
