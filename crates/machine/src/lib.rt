// The types that the board's code and its definitions share, and the theorem over whole runs.
#![tactic(auto)]

pub mod answer;
pub mod cell;
pub mod stage;
pub mod stands;
pub mod word;

pub use answer::{Answer, AnswerKind, Reason};
pub use cell::{Cell, Link, Prev};
pub use stage::{Goal, Search, Stage};
pub use word::{Kind, Op, Word, place_of, session_of};
