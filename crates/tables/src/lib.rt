// The commands that show schedules as tables.
#![tactic(auto)]

pub mod compare;
pub mod run;
