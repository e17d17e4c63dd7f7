// Why a comparison failed: what a link is now in place of what was read.
use crate::names::Target;
use crate::told::Told;
use machine::Prev;
use std::fmt;

impl Told<'_> {
    // The link of a cell.
    pub(crate) fn cell_changed<W: fmt::Write>(
        &self,
        cell: u8,
        f: &mut fmt::Formatter<W>,
    ) -> fmt::Result {
        let Some(now) = self.moment.compared else {
            return write!(f, "cell {cell} has changed");
        };
        if now.link.marked {
            return write!(f, "cell {cell} is marked since");
        }
        let target = Target(now.link.to);
        write!(f, "cell {cell} leads to {target} now")
    }

    // The link of the one before.
    pub(crate) fn prev_changed<W: fmt::Write>(
        &self,
        prev: Prev,
        f: &mut fmt::Formatter<W>,
    ) -> fmt::Result {
        match prev {
            Prev::Front => {
                let target = Target(self.moment.front);
                write!(f, "the front leads to {target} now")
            }
            Prev::At(cell) => self.cell_changed(cell, f),
        }
    }
}
