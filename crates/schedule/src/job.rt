// What is done over a reclaimer of any scheme.
use crate::scheme::Scheme;
use items::ItemOrder;
use reclaim::{Epochs, HazardPointers, QuiescentStates, Reclaimer, Unmade};
use std::alloc::Global;

// What is done with a reclaimer that was to be made, whichever scheme it follows, and with items of any sort.
pub trait Job {
    type Output;

    fn go<R: Reclaimer + Drop, T: ItemOrder>(
        self,
        made: Result<R, Unmade>,
        items: &[T],
    ) -> Self::Output;
}

// Makes a reclaimer of a scheme and does a job over it. A load and a schedule have the three numbers among others, so
// a struct of them would be filled for this call only.
pub fn with_reclaimer<J: Job, T: ItemOrder>(
    heap: Global,
    scheme: Scheme,
    sessions: u8,
    cells: u16,
    items: &[T],
    job: J,
) -> J::Output {
    match scheme {
        Scheme::Hazard => job.go(HazardPointers::new(heap, sessions, cells), items),
        Scheme::Epoch => job.go(Epochs::new(heap, sessions, cells), items),
        Scheme::Quiescent => job.go(QuiescentStates::new(heap, sessions, cells), items),
    }
}
