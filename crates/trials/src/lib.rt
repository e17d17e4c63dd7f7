// The commands that try things out by numbers drawn from a seed.
#![tactic(auto)]

mod damage;
pub mod fuzz;
pub mod load;
mod options;
mod samples;
