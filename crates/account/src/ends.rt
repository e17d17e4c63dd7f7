// What the steps after a search did: linking a fresh cell, marking, unlinking.
use crate::told::Told;
use machine::{AnswerKind, Prev, Stage};
use std::fmt;

impl Told<'_> {
    pub(crate) fn link<W: fmt::Write>(
        &self,
        sought: u16,
        fresh: u8,
        prev: Prev,
        f: &mut fmt::Formatter<W>,
    ) -> fmt::Result {
        if self.moment.answer.kind != AnswerKind::Yes {
            self.prev_changed(prev, f)?;
            return f.write_str(", the swap fails; searches again");
        }
        match prev {
            Prev::Front => write!(f, "links cell {fresh} at the front")?,
            Prev::At(p) => write!(f, "links cell {fresh} after cell {p}")?,
        }
        write!(f, "; decided: {} is locked", self.item(sought))
    }

    pub(crate) fn mark<W: fmt::Write>(
        &self,
        sought: u16,
        cur: u8,
        f: &mut fmt::Formatter<W>,
    ) -> fmt::Result {
        let Stage::RemoveCell { .. } = self.moment.after else {
            self.cell_changed(cur, f)?;
            return f.write_str(", the swap fails; searches again");
        };
        write!(
            f,
            "marks cell {cur}; decided: {} is removed",
            self.item(sought)
        )
    }

    pub(crate) fn remove<W: fmt::Write>(
        &self,
        prev: Prev,
        cur: u8,
        f: &mut fmt::Formatter<W>,
    ) -> fmt::Result {
        if self.moment.answer.kind != AnswerKind::Yes {
            self.prev_changed(prev, f)?;
            return f.write_str(", the swap fails; searches to clear up");
        }
        write!(
            f,
            "unlinks cell {cur} and retires it; the delete is complete"
        )
    }
}
