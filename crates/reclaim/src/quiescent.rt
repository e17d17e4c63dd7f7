// Quiescent states: a cell is given back once every session has left that was inside when it was retired.

pub mod table;

ghost use Rattle.std.specs.Prelude.{◌≡◌, ℕ, ◌<◌, true, false, not, map, length, slice_index, slice_index_or};
ghost use Rattle.std.specs.List.{remove, list_all};
ghost use Rattle.reclaim.specs.Cells.{has_with, Found};
ghost use Rattle.reclaim.specs.Model.{retire_answer};
ghost use Rattle.reclaim.specs.QuiescentStates.{RecordTable, quiescent, waits, recorded, strike as struck};
ghost use Rattle.reclaim.specs.Made.{Made};
ghost use Rattle.reclaim.specs.Table.{cell as cell_in, new as new_table, with_held, held_after};
ghost use Rattle.reclaim.specs.Views.{quiescent_table};
ghost use Rattle.reclaim.specs.QuiescentLaws.{quiescent_lawful};
ghost use Rattle.std.proofs.Common.{rules};

use crate::held::{Held, HeldCell};
use crate::reclaimer::Reclaimer;
use crate::refusal::{Refusal, Unmade};
use crate::sizes::Sizes;
use crate::unlinked::{Unlinked, Unpaid};
use std::alloc::Global;
use table::QuiescentStates;

// Whether everybody has left who was inside when the cell was retired.
fn is_free(held_cell: &HeldCell<[bool; 8]>) -> bool
    ensures { result ≡ list_all not held_cell.now.note }
{
    // A copy is looked through faster.
    let users = held_cell.note;
    users.iter().all(|user| !user)
}

// Takes the session out of every record.
fn strike_all(held: &mut Held<[bool; 8]>, session: usize)
    requires { session < 8 }
    ensures items { held.new.list.items ≡ map (struck session) held.old.list.items }
    ensures sizes { held.new.sizes ≡ held.old.sizes }
{
    for held_cell in held.list.iter_mut() {
        held_cell.note[session] = false;
    }
}

impl QuiescentStates {
    // A reclaimer with nobody inside that holds nothing. All its memory is taken here.
    pub fn new(heap: Global, sessions: u8, cells: u16) -> Result<QuiescentStates, Unmade>
        ensures { Made quiescent quiescent_table (new_table false) sessions cells result }
    {
        let held = Held::new(heap, Sizes::new(sessions, cells)?)?;
        Ok(QuiescentStates {
            inside: [false; 8],
            held,
        })
    }

    fn strike(&mut self, session: usize)
        requires { session < 8 }
        ensures after { quiescent_table self.new ≡ with_held (quiescent_table self.old) (map (struck session) self.old.held.list.items) }
        ensures out { (c : ℕ) → has_with cell_in (recorded session) self.new.held.list.items c ≡ false }
    {
        strike_all(&mut self.held, session);
    }

    // The place of the oldest cell whose record is empty.
    fn oldest_free(&self) -> Option<usize>
        ensures { Found cell_in waits self.now.held.list.items result }
    {
        self.held.list.iter().position(is_free)
    }

    // Holds the cell as the newest, with a record of sessions that are inside, or hands the token back.
    fn retire_recorded(&mut self, debt: Unlinked, users: [bool; 8]) -> Result<(), Unpaid>
        requires eight { length users ≡ 8 }
        requires inside { (s : ℕ) → slice_index_or users s false ≡ true → slice_index_or self.old.inside s false ≡ true }
        ensures answer { result ≡ retire_answer quiescent (quiescent_table self.old) debt }
        ensures after { quiescent_table self.new ≡ with_held (quiescent_table self.old) (held_after self.old.held.sizes.cells self.old.held.list.items debt.cell users) }
    {
        self.held.retire(debt, users)
    }

    // Gives back the cell at this place of the list. Its contract speaks of this table, so each table has one.
    fn give(&mut self, at: usize) -> u8
        requires { at < length self.old.held.list.items }
        ensures answer { result ≡ slice_index (map cell_in self.old.held.list.items) at }
        ensures after { quiescent_table self.new ≡ with_held (quiescent_table self.old) (remove self.old.held.list.items at) }
    {
        self.held.give(at)
    }
}

impl Reclaimer for QuiescentStates {
    ghost State = { RecordTable };

    ghost state = { quiescent_table };

    ghost model = { quiescent };

    ghost good = { Prim.search rules };

    ghost lawful = { quiescent_lawful };

    fn enter(&mut self, session: u8) -> Result<(), Refusal> {
        self.held
            .sizes
            .check_outside(session, self.is_inside(session))?;
        self.inside[session as usize] = true;
        Ok(())
    }

    fn leave(&mut self, session: u8) -> Result<(), Refusal> {
        self.held
            .sizes
            .check_inside(session, self.is_inside(session))?;
        self.strike(session as usize);
        self.inside[session as usize] = false;
        Ok(())
    }

    // No slot stores anything, so nothing is left to do. Each table checks by its own sizes.
    fn protect(&mut self, session: u8, slot: u8, cell: u8) -> Result<(), Refusal> {
        self.held
            .sizes
            .check_protect(session, self.is_inside(session), slot, cell)
    }

    fn retire(&mut self, debt: Unlinked) -> Result<(), Unpaid> {
        self.retire_recorded(debt, self.inside)
    }

    fn collect(&mut self) -> Option<u8> {
        let at = self.oldest_free()?;
        Some(self.give(at))
    }

    fn is_inside(&self, session: u8) -> bool {
        self.inside.get(session as usize) == Some(&true)
    }

    fn is_held(&self, cell: u8) -> bool {
        self.held.has(cell)
    }

    fn held_count(&self) -> u16 {
        self.held.count()
    }

    fn sizes(&self) -> (u8, u16) {
        self.held.sizes()
    }
}
