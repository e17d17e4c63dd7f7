// What a step of a search did.
use crate::names::Target;
use crate::told::Told;
use machine::{AnswerKind, Goal, Prev, Search, Stage};
use std::fmt;

impl Told<'_> {
    fn starts_over(&self) -> bool {
        matches!(
            self.moment.after,
            Stage::Find {
                at: Search::ReadFront,
                ..
            }
        )
    }

    // The search ended without the item.
    fn absent<W: fmt::Write>(&self, goal: Goal, f: &mut fmt::Formatter<W>) -> fmt::Result {
        match goal {
            Goal::Look { sought } | Goal::Take { sought } => write!(
                f,
                "; decided: {} is not locked",
                self.item(sought)
            ),
            Goal::Add { fresh, .. } => write!(f, "; cell {fresh} is to go in here"),
            Goal::Finish { .. } => f.write_str("; the delete is complete"),
        }
    }

    // The search ended at the item.
    fn present<W: fmt::Write>(&self, goal: Goal, f: &mut fmt::Formatter<W>) -> fmt::Result {
        match goal {
            Goal::Look { sought } => write!(f, "; decided: {} is locked", self.item(sought)),
            Goal::Add { sought, fresh } => write!(
                f,
                "; decided: {} is locked already, cell {fresh} goes back to the free cells",
                self.item(sought)
            ),
            Goal::Take { .. } => f.write_str("; it is to be marked"),
            Goal::Finish { .. } => f.write_str("; the delete is complete"),
        }
    }

    // Whether a search that ended at a cell it confirmed ended at the item itself.
    fn found(&self, goal: Goal) -> bool {
        match goal {
            Goal::Look { .. } => self.moment.answer.kind == AnswerKind::Yes,
            Goal::Add { .. } => self.moment.answer.kind == AnswerKind::No,
            Goal::Take { .. } => matches!(self.moment.after, Stage::MarkCell { .. }),
            Goal::Finish { .. } => true,
        }
    }

    fn read_front<W: fmt::Write>(&self, goal: Goal, f: &mut fmt::Formatter<W>) -> fmt::Result {
        if let Stage::Find {
            at: Search::ProtectFirst { cur },
            ..
        } = self.moment.after
        {
            return write!(f, "reads the front: cell {cur}");
        }
        f.write_str("no locks")?;
        self.absent(goal, f)
    }

    fn check_front<W: fmt::Write>(&self, cur: u8, f: &mut fmt::Formatter<W>) -> fmt::Result {
        if self.starts_over() {
            self.prev_changed(Prev::Front, f)?;
            return f.write_str("; searches again");
        }
        write!(
            f,
            "the front still leads to cell {cur}, which may be touched now"
        )
    }

    fn read_cell<W: fmt::Write>(&self, cur: u8, f: &mut fmt::Formatter<W>) -> fmt::Result {
        write!(f, "reads cell {cur}")?;
        let (marked, next, place) = match self.moment.after {
            Stage::Find {
                at: Search::ProtectNext {
                    marked,
                    next,
                    place,
                    ..
                },
                ..
            } => (marked, Some(next), place),
            Stage::Find {
                at: Search::CheckPrev {
                    marked,
                    next,
                    place,
                    ..
                },
                ..
            } => (marked, next, place),
            _ => return Ok(()),
        };
        let mark = if marked { ", marked" } else { "" };
        let target = Target(next);
        write!(f, ": {}{mark}, next {target}", self.item(place))
    }

    fn check_prev<W: fmt::Write>(
        &self,
        goal: Goal,
        prev: Prev,
        cur: u8,
        place: u16,
        f: &mut fmt::Formatter<W>,
    ) -> fmt::Result {
        if self.starts_over() {
            self.prev_changed(prev, f)?;
            return f.write_str("; searches again");
        }
        let name = self.item(place);
        let wanted = self.item(goal.sought());
        match self.moment.after {
            Stage::Find {
                at: Search::Unlink { .. },
                ..
            } => write!(f, "cell {cur} is marked: it is to be unlinked"),
            Stage::Find {
                at: Search::ConfirmCell { .. },
                ..
            } => write!(
                f,
                "cell {cur} is still linked, and {name} is not past {wanted}"
            ),
            _ => {
                let which = match prev {
                    Prev::Front => "first",
                    Prev::At(_) => "next",
                };
                write!(f, "the {which} lock is {name}, past {wanted}")?;
                self.absent(goal, f)
            }
        }
    }

    fn confirm<W: fmt::Write>(
        &self,
        goal: Goal,
        cur: u8,
        place: u16,
        f: &mut fmt::Formatter<W>,
    ) -> fmt::Result {
        if self.starts_over() {
            self.cell_changed(cur, f)?;
            return f.write_str("; searches again");
        }
        let name = self.item(place);
        let wanted = self.item(goal.sought());
        if let Stage::Find {
            at: Search::ShiftPrev { next, .. },
            ..
        } = self.moment.after
        {
            return write!(
                f,
                "cell {cur} has {name}, before {wanted}; cell {next} may be touched now"
            );
        }
        if self.found(goal) {
            write!(f, "cell {cur} has {name}")?;
            return self.present(goal, f);
        }
        write!(f, "the last lock is {name}, before {wanted}")?;
        self.absent(goal, f)
    }

    fn unlink<W: fmt::Write>(
        &self,
        goal: Goal,
        prev: Prev,
        cur: u8,
        next: Option<u8>,
        f: &mut fmt::Formatter<W>,
    ) -> fmt::Result {
        if self.starts_over() {
            self.prev_changed(prev, f)?;
            return f.write_str(", the swap fails; searches again");
        }
        write!(f, "unlinks the marked cell {cur} and retires it")?;
        match next {
            Some(next) => write!(f, "; cell {next} may be touched now"),
            None => self.absent(goal, f),
        }
    }

    // A step of a search.
    pub(crate) fn search<W: fmt::Write>(
        &self,
        goal: Goal,
        at: Search,
        f: &mut fmt::Formatter<W>,
    ) -> fmt::Result {
        match at {
            Search::ReadFront => self.read_front(goal, f),
            Search::ProtectFirst { cur } => write!(f, "protects cell {cur} in slot 1"),
            Search::CheckFront { cur } => self.check_front(cur, f),
            Search::ReadCell { cur, .. } => self.read_cell(cur, f),
            Search::ProtectNext { next, .. } => write!(f, "protects cell {next} in slot 0"),
            Search::CheckPrev {
                prev,
                cur,
                place,
                ..
            } => self.check_prev(goal, prev, cur, place, f),
            Search::ConfirmCell { cur, place, .. } => self.confirm(goal, cur, place, f),
            Search::ShiftPrev { cur, .. } => write!(
                f,
                "protects cell {cur} in slot 2 as the one before"
            ),
            Search::ShiftCur { next, .. } => write!(
                f,
                "protects cell {next} in slot 1 and goes on to it"
            ),
            Search::Unlink { prev, cur, next } => self.unlink(goal, prev, cur, next, f),
        }
    }
}
