// The decided operations, in the order of their deciding steps.
ghost use Rattle.std.specs.Prelude.{◌≡◌, Some, None};
ghost use Rattle.machine.specs.declared.stage.Goal.TheVariants.{Finish};
ghost use Rattle.machine.specs.declared.stage.Stage.TheVariants.{Find, MarkCell, RemoveCell};
ghost use Rattle.watch.specs.declared.decided.Decision.TheVariants.{Yes};

use account::{item, letter};
use machine::{Answer, AnswerKind, Goal, Op, Stage};
use std::fmt;

// How an operation was decided.
#[derive(Clone, Copy, PartialEq, Eq, Debug)]
pub enum Decision {
    No,
    Yes,
    // a pop took this place off the stack
    Popped { place: u16 },
}

#[derive(Clone, Copy, PartialEq, Eq, Debug)]
pub struct Decided {
    pub session: u8,
    pub op: Op,
    pub decision: Decision,
}

// Whether a step decided its operation, and how: a delete is decided by its mark, all else where it completes.
pub fn verdict(before: Stage, after: Stage, answer: Answer) -> Option<Decision>
    ensures marked { (sought prev cur next at by of to : _) → before ≡ MarkCell sought prev cur next → after ≡ RemoveCell at by of to → result ≡ Some Yes }
    ensures removed { (sought prev cur next : _) → before ≡ RemoveCell sought prev cur next → result ≡ None }
    ensures finished { (sought at : _) → before ≡ Find (Finish sought) at → result ≡ None }
{
    match (before, answer.kind) {
        (Stage::MarkCell { .. }, _) => match after {
            Stage::RemoveCell { .. } => Some(Decision::Yes),
            _ => None,
        },
        (
            Stage::RemoveCell { .. }
            | Stage::Find {
                goal: Goal::Finish { .. },
                ..
            },
            _,
        ) => None,
        (Stage::PopSwapHead { .. }, AnswerKind::Yes) => Some(Decision::Popped {
            place: answer.value,
        }),
        (_, AnswerKind::Yes) => Some(Decision::Yes),
        (_, AnswerKind::No) => Some(Decision::No),
        _ => None,
    }
}

// The serial order: each decided operation with its answer and its session.
#[derive(Drop)]
pub struct Serial<'a> {
    pub decided: &'a [Decided],
    pub labels: &'a [String],
}

impl Serial<'_> {
    fn asked<W: fmt::Write>(&self, op: Op, f: &mut fmt::Formatter<W>) -> fmt::Result {
        let (verb, place) = match op {
            Op::Insert { place } => ("insert", place),
            Op::Delete { place } => ("delete", place),
            Op::Contains { place } => ("contains", place),
            Op::Push { place } => ("push", place),
            Op::Pop => return f.write_str("pop"),
        };
        write!(f, "{verb} {}", item(self.labels, place))
    }

    fn answered<W: fmt::Write>(
        &self,
        decision: Decision,
        f: &mut fmt::Formatter<W>,
    ) -> fmt::Result {
        match decision {
            Decision::No => f.write_str(" no"),
            Decision::Yes => f.write_str(" yes"),
            Decision::Popped { place } => write!(f, " yes {}", item(self.labels, place)),
        }
    }
}

impl fmt::Display for Serial<'_> {
    fn fmt<W: fmt::Write>(&self, f: &mut fmt::Formatter<W>) -> fmt::Result {
        let mut join = "";
        for decided in self.decided {
            f.write_str(join)?;
            self.asked(decided.op, f)?;
            self.answered(decided.decision, f)?;
            write!(f, " ({})", letter(decided.session))?;
            join = " · ";
        }
        Ok(())
    }
}
