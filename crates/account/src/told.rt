// A word in plain words.
use crate::moment::Moment;
use crate::names::{Target, item};
use machine::{AnswerKind, Goal, Kind, Op, Reason, Search, Stage, Word};
use std::fmt;

// What a word did.
#[derive(Drop)]
pub struct Told<'a> {
    pub moment: &'a Moment,
    pub labels: &'a [String],
}

impl Told<'_> {
    // The item at a place, as the schedule writes it.
    pub(crate) fn item(&self, place: u16) -> &str {
        item(self.labels, place)
    }

    // Why the word was refused.
    fn refusal<W: fmt::Write>(&self, f: &mut fmt::Formatter<W>) -> fmt::Result {
        match Reason::try_from(self.moment.answer.value) {
            Ok(Reason::Kind) => f.write_str("no such kind of word"),
            Ok(Reason::SpareBits) => f.write_str("a bit is set that has to be zero"),
            Ok(Reason::NoSession) => f.write_str("no such session"),
            Ok(Reason::NoPlace) => f.write_str("no such place"),
            Ok(Reason::Inside) => f.write_str("the session is inside an operation"),
            Ok(Reason::Outside) => f.write_str("the session is in no operation"),
            Ok(Reason::NoCell) => {
                let held = self.moment.tallies_before.held;
                write!(
                    f,
                    "no cell is free, and collect gives back none of the {held} held"
                )
            }
            _ => f.write_str("refused"),
        }
    }

    fn tidied<W: fmt::Write>(&self, f: &mut fmt::Formatter<W>) -> fmt::Result {
        let given = self.moment.answer.value;
        let held = self.moment.tallies.held;
        let free = self.moment.tallies.free;
        write!(f, "collect gives back {given}; {held} held, {free} free")
    }

    // The fresh cell of an operation that begins, and where it came from.
    fn with_fresh<W: fmt::Write>(&self, f: &mut fmt::Formatter<W>) -> fmt::Result {
        if let Stage::PushReadHead { fresh }
        | Stage::Find {
            goal: Goal::Add { fresh, .. },
            at: Search::ReadFront,
        } = self.moment.after
        {
            write!(f, " with cell {fresh}")?;
        }
        f.write_str(if self.moment.tallies_before.free == 0 {
            ", which collect gave back"
        } else {
            " from the free cells"
        })
    }

    fn begin<W: fmt::Write>(&self, op: Op, f: &mut fmt::Formatter<W>) -> fmt::Result {
        match op {
            Op::Insert { place } => {
                write!(f, "begins to lock {}", self.item(place))?;
                self.with_fresh(f)
            }
            Op::Delete { place } => write!(f, "begins to remove {}", self.item(place)),
            Op::Contains { place } => write!(f, "begins to look for {}", self.item(place)),
            Op::Push { place } => {
                write!(f, "begins to push {}", self.item(place))?;
                self.with_fresh(f)
            }
            Op::Pop => f.write_str("begins to pop"),
        }
    }

    fn step<W: fmt::Write>(&self, f: &mut fmt::Formatter<W>) -> fmt::Result {
        if self.moment.woke {
            f.write_str("wakes: ")?;
        }
        match self.moment.before {
            Stage::Outside => Ok(()),
            Stage::PushReadHead { fresh } => {
                let head = Target(self.moment.head);
                write!(f, "reads the head ({head}) and links cell {fresh} to it")
            }
            Stage::PushSwapHead { fresh, .. } => self.push_swap(fresh, f),
            Stage::PopReadHead => self.pop_read(f),
            Stage::PopProtectTop { top } => write!(f, "protects cell {top} in slot 0"),
            Stage::PopCheckHead { top } => self.pop_check(top, f),
            Stage::PopReadTop { top } => self.pop_touch(top, f),
            Stage::PopSwapHead { top, next, place } => self.pop_swap(top, next, place, f),
            Stage::Find { goal, at } => self.search(goal, at, f),
            Stage::LinkFresh {
                sought,
                fresh,
                prev,
                ..
            } => self.link(sought, fresh, prev, f),
            Stage::MarkCell { sought, cur, .. } => self.mark(sought, cur, f),
            Stage::RemoveCell { prev, cur, .. } => self.remove(prev, cur, f),
        }
    }
}

impl fmt::Display for Told<'_> {
    fn fmt<W: fmt::Write>(&self, f: &mut fmt::Formatter<W>) -> fmt::Result {
        match (self.moment.answer.kind, self.moment.asked) {
            (AnswerKind::Refused, _) | (_, Err(_)) => self.refusal(f),
            (_, Ok(Word::Tidy)) => self.tidied(f),
            (
                _,
                Ok(
                    Word::Of {
                        kind: Kind::Begin(op),
                        ..
                    },
                ),
            ) => self.begin(op, f),
            (
                _,
                Ok(
                    Word::Of {
                        kind: Kind::Step,
                        ..
                    },
                ),
            ) => self.step(f),
        }
    }
}
