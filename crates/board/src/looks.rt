ghost use Rattle.std.specs.Prelude.{◌≡◌, reverse, length};
ghost use Rattle.board.specs.View.{view};

use crate::board::Board;
use machine::{Cell, Stage};
use reclaim::Reclaimer;

// Looks at a board, which change nothing.
impl<R: Reclaimer> Board<R> {
    // The held and the free cells.
    pub fn tallies(&self) -> (u16, u16)
        ensures { result ≡ (R.model.count (view R.state self.now).memory.reclaimer, length (view R.state self.now).memory.free) }
    {
        self.memory.tallies()
    }

    #[tactic(auto, unfolding(crate::specs::View::stages))]
    fn stage_at(&self, session: usize) -> Stage
        ensures { result ≡ (view R.state self.now).stage session }
    {
        self.stages.get(session).copied().unwrap_or(Stage::Outside)
    }

    // Where a session stands; one that there is not is outside.
    pub fn stage_of(&self, session: u8) -> Stage
        ensures { result ≡ (view R.state self.now).stage session }
    {
        self.stage_at(session as usize)
    }

    pub fn cell_at(&self, cell: u8) -> Cell
        ensures to { result.link.to ≡ (view R.state self.now).memory.link cell }
        ensures marked { result.link.marked ≡ (view R.state self.now).memory.mark cell }
        ensures place { result.place ≡ (view R.state self.now).memory.item cell }
    {
        self.memory.cell(cell)
    }

    // The top cell of the stack.
    pub fn head(&self) -> Option<u8>
        ensures { result ≡ (view R.state self.now).memory.head }
    {
        self.memory.head()
    }

    // The first cell of the list.
    pub fn front(&self) -> Option<u8>
        ensures { result ≡ (view R.state self.now).memory.front }
    {
        self.memory.front()
    }

    pub fn is_held(&self, cell: u8) -> bool
        ensures { result ≡ R.model.held (view R.state self.now).memory.reclaimer cell }
    {
        self.memory.is_held(cell)
    }

    // The free cells, the top last.
    pub fn free_cells(&self) -> &[u8]
        ensures { reverse result.now ≡ (view R.state self.now).memory.free }
    {
        self.memory.free_cells()
    }
}
