// The board for C and Rust: two functions that open a board, run words on it and report.
//
// No board crosses this border, so each call opens a new one over a new reclaimer and lets both go at its end.
// What a call answers is an `AnswerRecord` for each word and a `Report`. A call that is refused says why by a number
// and leaves the records as they were.
#![tactic(auto)]

mod bytes;
mod exports;
mod record;
mod report;
mod run;

pub use exports::{slotlock_play_bytes, slotlock_play_numbers};
pub use record::AnswerRecord;
pub use report::Report;
