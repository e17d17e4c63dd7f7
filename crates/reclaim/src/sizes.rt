// How many sessions and cells a reclaimer has, and the checks of a call's numbers that every scheme makes first,
// each in its order. The first that fails is the refusal.

ghost use Rattle.std.specs.Prelude.{◌≡◌, ◌≤◌, true, false, Ok, Err};
ghost use Rattle.reclaim.specs.declared.refusal.Unmade.TheVariants.{Sizes as OutOfRange};
ghost use Rattle.reclaim.specs.Checks.{check_outside, check_inside, check_protect, sizes_fit};

use crate::refusal::{Refusal, Unmade};

// 1 to 8 sessions and 1 to 256 cells.
#[derive(Clone, Copy)]
pub struct Sizes {
    pub sessions: u8,
    pub cells: u16,
    ghost few: { sessions ≤ 8 },
    ghost few_cells: { cells ≤ 256 },
}

impl Sizes {
    pub fn new(sessions: u8, cells: u16) -> Result<Sizes, Unmade>
        ensures { elim result [ Ok s ↦ (s.sessions ≡ sessions) × (s.cells ≡ cells) × (sizes_fit sessions cells ≡ true) | Err e ↦ (e ≡ OutOfRange) × (sizes_fit sessions cells ≡ false) ] }
    {
        if 1 <= sessions && sessions <= 8 && 1 <= cells && cells <= 256 {
            Ok(Sizes { sessions, cells })
        } else {
            Err(Unmade::Sizes)
        }
    }

    // For `enter`: a session that there is, and that is outside.
    pub fn check_outside(&self, session: u8, inside: bool) -> Result<(), Refusal>
        ensures { result ≡ check_outside session self.now.sessions inside }
    {
        if session >= self.sessions {
            Err(Refusal::NoSession)
        } else if inside {
            Err(Refusal::AlreadyInside)
        } else {
            Ok(())
        }
    }

    // For `leave`: a session that there is, and that is inside.
    pub fn check_inside(&self, session: u8, inside: bool) -> Result<(), Refusal>
        ensures { result ≡ check_inside session self.now.sessions inside }
    {
        if session >= self.sessions {
            Err(Refusal::NoSession)
        } else if inside {
            Ok(())
        } else {
            Err(Refusal::NotInside)
        }
    }

    // For `protect`: a session inside, then the slot, then the cell.
    pub fn check_protect(
        &self,
        session: u8,
        inside: bool,
        slot: u8,
        cell: u8,
    ) -> Result<(), Refusal>
        ensures { result ≡ check_protect session self.now.sessions inside slot cell self.now.cells }
    {
        self.check_inside(session, inside)?;
        if slot >= 3 {
            Err(Refusal::NoSlot)
        } else if u16::from(cell) >= self.cells {
            Err(Refusal::NoCell)
        } else {
            Ok(())
        }
    }
}
