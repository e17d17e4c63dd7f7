use crate::free::FreeStack;
use machine::Cell;

// Links are numbers of cells, since which cell is used again is what a board is about. A number is a `u8`, so that
// every index is in range. Contracts read a memory by `memory_of`: the value of a model may not name a bound's state.
#[derive(Drop)]
pub struct Memory<R> {
    pub(crate) cells: [Cell; 256],
    pub(crate) head: Option<u8>,
    pub(crate) front: Option<u8>,
    pub(crate) free: FreeStack,
    pub(crate) reclaimer: R,
}
