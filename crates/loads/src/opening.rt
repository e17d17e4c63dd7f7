// A board over a reclaimer that was to be made.
ghost use Rattle.std.specs.Prelude.{◌≡◌, Err};
ghost use Rattle.machine.specs.Unmade.{unmade_reason};
ghost use Rattle.reclaim.specs.declared.refusal.Unmade.{Unmade as Whys};

use board::{Board, Unopened};
use machine::Reason;
use reclaim::{Reclaimer, Unmade};
use std::alloc::Global;

// A new board for lists of so many items, or why there is none.
pub fn open<R: Reclaimer + Drop>(
    heap: Global,
    made: Result<R, Unmade>,
    items: usize,
) -> Result<Board<R>, Reason>
    ensures { (why : Whys) → made ≡ Err why → result ≡ Err (unmade_reason why) }
{
    let items = u16::try_from(items).unwrap_or(u16::MAX);
    Board::open(heap, made?, items).map_err(|Unopened {
        why,
        reclaimer: _reclaimer,
    }| why)
}
