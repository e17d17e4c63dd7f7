// Hazard pointers: a session stores a cell in a slot before it uses it, and what is stored is not given back.

pub mod table;

ghost use Rattle.std.specs.Prelude.{◌≡◌, false};
ghost use Rattle.reclaim.specs.HazardPointers.{RowTable, hazard, empty_row};
ghost use Rattle.reclaim.specs.Made.{Made};
ghost use Rattle.reclaim.specs.Table.{new as new_table};
ghost use Rattle.reclaim.specs.Views.{hazard_table};
ghost use Rattle.reclaim.specs.HazardLaws.{hazard_lawful};
ghost use Rattle.std.proofs.Common.{rules};

use crate::held::Held;
use crate::reclaimer::Reclaimer;
use crate::refusal::{Refusal, Unmade};
use crate::sizes::Sizes;
use crate::unlinked::{Unlinked, Unpaid};
use std::alloc::Global;
use table::{HazardPointers, Row};

fn empty_row(inside: bool) -> Row
    ensures { result ≡ empty_row inside }
{
    Row {
        inside,
        slots: [None; 3],
    }
}

impl HazardPointers {
    // A reclaimer with nobody inside that holds nothing. All its memory is taken here.
    pub fn new(heap: Global, sessions: u8, cells: u16) -> Result<HazardPointers, Unmade>
        ensures { Made hazard hazard_table (new_table (empty_row false)) sessions cells result }
    {
        let held = Held::new(heap, Sizes::new(sessions, cells)?)?;
        Ok(HazardPointers {
            rows: [empty_row(false); 8],
            held,
        })
    }
}

impl Reclaimer for HazardPointers {
    ghost State = { RowTable };

    ghost state = { hazard_table };

    ghost model = { hazard };

    ghost good = { Prim.search rules };

    ghost lawful = { hazard_lawful };

    fn enter(&mut self, session: u8) -> Result<(), Refusal> {
        self.held
            .sizes
            .check_outside(session, self.is_inside(session))?;
        self.rows[session as usize] = empty_row(true);
        Ok(())
    }

    fn leave(&mut self, session: u8) -> Result<(), Refusal> {
        self.held
            .sizes
            .check_inside(session, self.is_inside(session))?;
        self.rows[session as usize] = empty_row(false);
        Ok(())
    }

    fn protect(&mut self, session: u8, slot: u8, cell: u8) -> Result<(), Refusal> {
        self.held
            .sizes
            .check_protect(session, self.is_inside(session), slot, cell)?;
        self.rows[session as usize].slots[slot as usize] = Some(cell);
        Ok(())
    }

    fn retire(&mut self, debt: Unlinked) -> Result<(), Unpaid> {
        self.held.retire(debt, ())
    }

    // Nested loops over rows and slots, left at the first match by the label: a rule of the project.
    fn collect(&mut self) -> Option<u8> {
        let (rows, held) = (&self.rows, &self.held);
        'held: for (at, held_cell) in held.list.iter().enumerate() {
            let cell = held_cell.cell;
            for row in rows {
                for slot in &row.slots {
                    if *slot == Some(cell) {
                        continue 'held;
                    }
                }
            }
            return Some(self.held.give(at));
        }
        None
    }

    fn is_inside(&self, session: u8) -> bool {
        self.rows
            .get(session as usize)
            .is_some_and(|row| row.inside)
    }

    fn is_held(&self, cell: u8) -> bool {
        self.held.has(cell)
    }

    fn held_count(&self) -> u16 {
        self.held.count()
    }

    fn sizes(&self) -> (u8, u16) {
        self.held.sizes()
    }
}
