// Runs a load from its opening on, and says what it came to.
use crate::driver::Driver;
use crate::figures::Done;
use crate::keys::{numbers, strings};
use crate::load::{ItemSort, Load};
use crate::opening::open;
use items::ItemOrder;
use machine::Reason;
use reclaim::{Reclaimer, Unmade};
use schedule::{Job, with_reclaimer};
use std::alloc::{AllocError, Global};

// A load that is to be driven.
struct Drive {
    heap: Global,
    load: Load,
}

impl Job for Drive {
    type Output = Result<Done, Reason>;

    fn go<R: Reclaimer + Drop, T: ItemOrder>(
        self,
        made: Result<R, Unmade>,
        items: &[T],
    ) -> Result<Done, Reason> {
        let Drive { heap, load } = self;
        let board = open(heap, made, items.len())?;
        let driver = Driver::new(board, items, load).ok_or(Reason::Sizes)?;
        Ok(driver.drive())
    }
}

// Over the items.
fn over<T: ItemOrder>(heap: Global, load: Load, items: &[T]) -> Result<Done, Reason> {
    with_reclaimer(
        heap,
        load.scheme,
        load.sessions,
        load.cells,
        items,
        Drive { heap, load },
    )
}

// Runs a load. Like sizes out of range, no keys at all are refused. A refusal is an outcome that is printed, and want of
// memory stops the caller: so one result stands in the other.
pub fn run(heap: Global, load: Load) -> Result<Result<Done, Reason>, AllocError> {
    match load.sort {
        ItemSort::Numbers => {
            let items = numbers(heap, load.keys)?;
            Ok(over(heap, load, items.as_slice()))
        }
        ItemSort::Bytes => {
            let items = strings(heap, load.keys)?;
            Ok(over(heap, load, items.as_slice()))
        }
    }
}
