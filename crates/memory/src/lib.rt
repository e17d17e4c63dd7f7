// The shared memory of a board: the cells, the stack's head, the list's front, the free stack, and the reclaimer
// that says when an unlinked cell is free again. Steps read and change it through the calls of this crate.
#![tactic(auto)]

mod calls;
mod cells;
mod free;
mod fresh;
mod memory;
mod new;
mod tidy;
mod turn;

pub use cells::same_cell;
pub use memory::Memory;
pub use turn::Turn;
