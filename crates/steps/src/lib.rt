// What a word asks of one session: the begin of an operation, or the step at which the session stands.
#![tactic(auto)]

mod begin;
mod dispatch;

pub use dispatch::act;
