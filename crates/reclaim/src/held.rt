// The held cells of a scheme, in the order of their retirement.

ghost use Rattle.std.specs.Prelude.{◌≡◌, ◌<◌, ◌≤◌, true, false, [], ◌∷◌, ◌++◌, map, length, Ok, Err, vec_capacity, slice_index};
ghost use Rattle.std.specs.List.{remove};
ghost use Rattle.reclaim.specs.declared.refusal.Unmade.TheVariants.{Memory as NoMemory};
ghost use Rattle.reclaim.specs.Cells.{has as stands_for, distinct, all_below, FlagsOf};
ghost use Rattle.reclaim.specs.Checks.{check_retire};
ghost use Rattle.reclaim.specs.Table.{cell as cell_in, held_after};

use crate::refusal::{Refusal, Unmade};
use crate::sizes::Sizes;
use crate::unlinked::{Unlinked, Unpaid};
use std::alloc::Global;

// A held cell with what its scheme notes of it.
#[derive(Drop)]
pub struct HeldCell<N: Drop> {
    pub cell: u8,
    pub note: N,
}

// The held cells, oldest first. There is room for all the cells that there are, so holding one more takes no memory.
// A flag for each cell says whether it is held, so that asking takes no search.
// The schemes hand what they are asked of held cells on to it. Their places for sessions stay with them: one table over
// all three would leave each contract to say which scheme it means.
#[derive(Drop)]
pub struct Held<N: Drop> {
    pub sizes: Sizes,
    pub list: Vec<HeldCell<N>>,
    flags: [bool; 256],
    ghost below: { all_below cell_in sizes.cells list.items ≡ true },
    ghost apart: { distinct cell_in list.items ≡ true },
    ghost room: { sizes.cells ≤ vec_capacity list },
    ghost every: { length flags ≡ 256 },
    ghost told: { FlagsOf cell_in list.items flags },
}

impl<N: Drop> Held<N> {
    // Nothing held yet.
    pub(crate) fn new(heap: Global, sizes: Sizes) -> Result<Held<N>, Unmade>
        ensures { elim result [ Ok h ↦ (h.sizes ≡ sizes) × (h.list.items ≡ []) | Err e ↦ e ≡ NoMemory ] }
    {
        Ok(Held {
            sizes,
            list: Vec::with_capacity(heap, sizes.cells as usize)?,
            flags: [false; 256],
        })
    }

    pub(crate) fn has(&self, cell: u8) -> bool
        ensures { result ≡ stands_for cell_in self.now.list.items cell }
    {
        self.flags[cell as usize]
    }

    pub(crate) fn sizes(&self) -> (u8, u16)
        ensures { result ≡ (self.now.sizes.sessions, self.now.sizes.cells) }
    {
        (self.sizes.sessions, self.sizes.cells)
    }

    pub(crate) fn count(&self) -> u16
        ensures { result ≡ length self.now.list.items }
    {
        self.list.len() as u16
    }

    // The token back, to be retired or with the reason why not.
    fn check_retire(&self, debt: Unlinked) -> Result<Unlinked, Unpaid>
        ensures { result ≡ check_retire debt debt self.now.sizes.cells (stands_for cell_in self.now.list.items debt.cell) }
    {
        let cell = debt.number();
        if u16::from(cell) >= self.sizes.cells {
            return Err(Unpaid {
                why: Refusal::NoCell,
                debt,
            });
        }
        if self.has(cell) {
            return Err(Unpaid {
                why: Refusal::AlreadyHeld,
                debt,
            });
        }
        Ok(debt)
    }

    // Holds the cell as the newest and spends its token.
    fn hold(&mut self, debt: Unlinked, note: N)
        requires below { debt.cell < self.old.sizes.cells }
        requires apart { stands_for cell_in self.old.list.items debt.cell ≡ false }
        ensures after { self.new.list.items ≡ self.old.list.items ++ record { cell = debt.cell; note = note } ∷ [] }
        ensures same { self.new.sizes ≡ self.old.sizes }
    {
        let cell = debt.paid();
        self.flags[cell as usize] = true;
        self.list.push_reserved(HeldCell { cell, note });
    }

    // Holds the cell as the newest and spends its token, or hands the token back.
    pub(crate) fn retire(&mut self, debt: Unlinked, note: N) -> Result<(), Unpaid>
        ensures answer { result ≡ check_retire tt debt self.old.sizes.cells (stands_for cell_in self.old.list.items debt.cell) }
        ensures after { self.new.list.items ≡ held_after self.old.sizes.cells self.old.list.items debt.cell note }
        ensures same { self.new.sizes ≡ self.old.sizes }
    {
        let debt = self.check_retire(debt)?;
        self.hold(debt, note);
        Ok(())
    }

    // Gives back the cell at this place.
    pub(crate) fn give(&mut self, at: usize) -> u8
        requires { at < length self.old.list.items }
        ensures answer { result ≡ slice_index (map cell_in self.old.list.items) at }
        ensures after { self.new.list.items ≡ remove self.old.list.items at }
        ensures same { self.new.sizes ≡ self.old.sizes }
    {
        let cell = self.list.remove(at).cell;
        self.flags[cell as usize] = false;
        cell
    }
}
