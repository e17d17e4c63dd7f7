ghost use Rattle.std.specs.Prelude.{◌≡◌, length};
ghost use Rattle.machine.specs.Machine.{entered, left, protected, retired};
ghost use Rattle.memory.specs.Of.{memory_of};

use crate::memory::Memory;
use reclaim::{Reclaimer, Unlinked};

// The reclaimer's calls on behalf of a step. A refused call changes nothing, so no answer is looked at.
impl<R: Reclaimer> Memory<R> {
    pub fn enter(&mut self, session: u8)
        ensures { memory_of R.state self.new ≡ entered R.model (memory_of R.state self.old) session }
    {
        let _ = self.reclaimer.enter(session);
    }

    pub fn leave(&mut self, session: u8)
        ensures { memory_of R.state self.new ≡ left R.model (memory_of R.state self.old) session }
    {
        let _ = self.reclaimer.leave(session);
    }

    pub fn protect(&mut self, session: u8, slot: u8, cell: u8)
        ensures { memory_of R.state self.new ≡ protected R.model (memory_of R.state self.old) session slot cell }
    {
        let _ = self.reclaimer.protect(session, slot, cell);
    }

    // A cell that a step has unlinked is a debt: the token is made here, and retiring spends it.
    pub fn retire(&mut self, cell: u8)
        ensures { memory_of R.state self.new ≡ retired R.model (memory_of R.state self.old) cell }
    {
        if let Some(debt) = Unlinked::of(&self.reclaimer, cell) {
            self.reclaimer.retire(debt).unwrap();
        }
    }

    pub fn is_held(&self, cell: u8) -> bool
        ensures { result ≡ R.model.held (memory_of R.state self.now).reclaimer cell }
    {
        self.reclaimer.is_held(cell)
    }

    // The held and the free cells.
    pub fn tallies(&self) -> (u16, u16)
        ensures { result ≡ (R.model.count (memory_of R.state self.now).reclaimer, length (memory_of R.state self.now).free) }
    {
        (self.reclaimer.held_count(), self.free.count())
    }
}
