ghost use Rattle.std.specs.Prelude.{◌≡◌, Ok, Err};
ghost use Rattle.memory.specs.Of.{memory_of, all_free};

use crate::free::FreeStack;
use crate::memory::Memory;
use machine::{Cell, Link};
use reclaim::Reclaimer;
use std::alloc::Global;

impl<R: Reclaimer> Memory<R> {
    // Empty lists and all cells free, over a reclaimer, which comes back where memory is wanting.
    pub fn new(heap: Global, reclaimer: R) -> Result<Memory<R>, R>
        ensures { elim result [ Ok m ↦ memory_of R.state m ≡ all_free R.model (R.state reclaimer) | Err back ↦ back ≡ reclaimer ] }
    {
        let (_, cells) = reclaimer.sizes();
        let Ok(free) = FreeStack::all(heap, cells) else {
            return Err(reclaimer);
        };
        // Written out: over `Cell::default()` the proof of the empty memory did not close.
        let blank = Cell {
            place: 0,
            link: Link {
                marked: false,
                to: None,
            },
        };
        Ok(Memory {
            cells: [blank; 256],
            head: None,
            front: None,
            free,
            reclaimer,
        })
    }
}
