// An unlinked cell is owed to the reclaimer, and the token of that debt can only be paid.

ghost use Rattle.std.specs.Prelude.{◌≡◌};
ghost use Rattle.reclaim.specs.Model.{owed};

use crate::reclaimer::Reclaimer;
use crate::refusal::Refusal;

// A cell that was unlinked and is not yet retired. Only `retire` takes it:
// the type has no `Drop` and its field is private, so it can be neither let go nor spent twice.
pub struct Unlinked {
    cell: u8,
}

impl Unlinked {
    // The token of a cell that the reclaimer knows and does not hold.
    pub fn of<R: Reclaimer>(reclaimer: &R, cell: u8) -> Option<Unlinked>
        ensures { result ≡ owed R.model (R.state reclaimer.now) cell }
    {
        let (_, cells) = reclaimer.sizes();
        if u16::from(cell) < cells && !reclaimer.is_held(cell) {
            Some(Unlinked { cell })
        } else {
            None
        }
    }

    // The cell's number.
    pub fn number(&self) -> u8
        ensures { result ≡ self.now.cell }
    {
        self.cell
    }

    // Spends the token, once its cell is held.
    pub(crate) fn paid(self) -> u8
        ensures { result ≡ self.cell }
    {
        let Unlinked { cell } = self;
        cell
    }
}

// A refused `retire`: why, and the token back.
pub struct Unpaid {
    pub why: Refusal,
    pub debt: Unlinked,
}
