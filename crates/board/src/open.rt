ghost use Rattle.std.specs.Prelude.{◌≡◌};
ghost use Rattle.board.specs.Opens.{inside_below, refused, Opened};

use crate::board::Board;
use machine::{Reason, Stage};
use memory::Memory;
use reclaim::Reclaimer;
use std::alloc::Global;

// A reclaimer that no board was opened over, and why. It is not `Drop`, so who lets the reclaimer go says so by name.
pub struct Unopened<R> {
    pub why: Reason,
    pub reclaimer: R,
}

impl<R> Unopened<R> {
    pub(crate) fn new(why: Reason, reclaimer: R) -> Unopened<R>
        ensures { result ≡ refused reclaimer why }
    {
        Unopened { why, reclaimer }
    }
}

fn some_inside<R: Reclaimer>(reclaimer: &R) -> bool
    ensures { result ≡ inside_below R.model (R.state reclaimer.now) 8 }
{
    (0..8).any(|session| reclaimer.is_inside(session))
}

impl<R: Reclaimer> Board<R> {
    pub(crate) fn open_over(heap: Global, reclaimer: R, items: u16) -> Result<Board<R>, Unopened<R>>
        ensures { Opened R.model R.state reclaimer items result }
    {
        let (sessions, cells) = reclaimer.sizes();
        if sessions == 0 || sessions > 8 || cells == 0 || cells > 256 || items > 1024 {
            return Err(Unopened::new(Reason::Sizes, reclaimer));
        }
        if reclaimer.held_count() > 0 || some_inside(&reclaimer) {
            return Err(Unopened::new(Reason::InUse, reclaimer));
        }
        // A `match`: by `map_err` and `?` the memory is moved twice more, which opening shows.
        match Memory::new(heap, reclaimer) {
            Ok(memory) => Ok(Board {
                memory,
                stages: [Stage::Outside; 8],
                sessions,
                items,
            }),
            Err(reclaimer) => Err(Unopened::new(Reason::Memory, reclaimer)),
        }
    }
}
