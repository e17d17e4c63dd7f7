// What a step of a push or a pop did.
use crate::names::Target;
use crate::told::Told;
use machine::{AnswerKind, Op, Stage};
use std::fmt;

impl Told<'_> {
    // The item that a push puts on the stack.
    fn pushed(&self) -> &str {
        match self.moment.op {
            Some(Op::Push { place }) => self.item(place),
            _ => self.item(u16::MAX),
        }
    }

    pub(crate) fn push_swap<W: fmt::Write>(
        &self,
        fresh: u8,
        f: &mut fmt::Formatter<W>,
    ) -> fmt::Result {
        if let Stage::PushReadHead { .. } = self.moment.after {
            let now = Target(self.moment.head);
            return write!(
                f,
                "the head is {now} now, the swap fails; reads the head again"
            );
        }
        write!(
            f,
            "the head becomes cell {fresh}; decided: {} is pushed",
            self.pushed()
        )
    }

    pub(crate) fn pop_read<W: fmt::Write>(&self, f: &mut fmt::Formatter<W>) -> fmt::Result {
        match self.moment.after {
            Stage::PopProtectTop { top } => write!(f, "reads the head: cell {top}"),
            _ => f.write_str("the stack is empty; decided: nothing to pop"),
        }
    }

    pub(crate) fn pop_check<W: fmt::Write>(
        &self,
        top: u8,
        f: &mut fmt::Formatter<W>,
    ) -> fmt::Result {
        if let Stage::PopReadTop { .. } = self.moment.after {
            return write!(f, "the head is still cell {top}, which may be touched now");
        }
        let now = Target(self.moment.head);
        write!(
            f,
            "the head is {now} now, not cell {top}; reads the head again"
        )
    }

    pub(crate) fn pop_touch<W: fmt::Write>(
        &self,
        top: u8,
        f: &mut fmt::Formatter<W>,
    ) -> fmt::Result {
        write!(f, "reads cell {top}")?;
        let Stage::PopSwapHead { next, place, .. } = self.moment.after else {
            return Ok(());
        };
        let below = Target(next);
        write!(f, ": {}, below it {below}", self.item(place))
    }

    pub(crate) fn pop_swap<W: fmt::Write>(
        &self,
        top: u8,
        next: Option<u8>,
        place: u16,
        f: &mut fmt::Formatter<W>,
    ) -> fmt::Result {
        if self.moment.answer.kind == AnswerKind::Yes {
            let below = Target(next);
            return write!(
                f,
                "the head becomes {below}, cell {top} is unlinked and retired; decided: {} is popped",
                self.item(place)
            );
        }
        let now = Target(self.moment.head);
        write!(
            f,
            "the head is {now} now, not cell {top}, the swap fails; reads the head again"
        )
    }
}
