// Seeded loads: words made from a seed, given to one board.
#![tactic(auto)]

mod begin;
mod driver;
pub mod figures;
pub mod generator;
mod keys;
pub mod load;
pub mod opening;
pub mod report;
pub mod sum;
mod whole;

pub use figures::{Done, Figures};
pub use generator::Generator;
pub use load::{DEFAULT_SEED, ItemSort, Load, Mode};
pub use opening::open;
pub use report::Report;
pub use sum::{mix, mix_answer};
pub use whole::run;
