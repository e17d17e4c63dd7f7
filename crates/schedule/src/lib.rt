// Reads schedules: the text that says which board to open and which words to give it.
#![tactic(auto)]

pub mod content;
pub mod expected;
mod fault;
pub mod header;
pub mod job;
pub mod keyword;
pub mod lines;
pub mod number;
mod reader;
mod scan;
pub mod schedule;
pub mod scheme;
mod string;
mod token;
pub mod word;

pub use content::{Act, Items, Line};
pub use expected::{Expected, Unread};
pub use header::Header;
pub use job::{Job, with_reclaimer};
pub use keyword::{Keyword, Names};
pub use lines::Lines;
pub use reader::read;
pub use schedule::Schedule;
pub use scheme::Scheme;
pub use word::{NoWordKind, WordKind, encode};
