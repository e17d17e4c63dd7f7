ghost use Rattle.machine.specs.Machine.{Trace, absent, present};
ghost use Rattle.memory.specs.Turns.{memory_at, SameTurn, Comes};

use machine::{Answer, Goal, Prev, Stage};
use memory::Turn;
use reclaim::Reclaimer;

// The search has ended with no such item.
pub(crate) fn search_absent<R: Reclaimer>(
    turn: &mut Turn<'_, R>,
    goal: Goal,
    prev: Prev,
    cur: Option<u8>,
) -> Answer
    ensures same { SameTurn turn.old turn.new }
    ensures ended { (tr : Trace) → Comes R.state turn.old turn.new result (absent R.model (memory_at R.state turn.old) turn.old.session goal prev cur tr) }
{
    match goal {
        Goal::Add { sought, fresh } => turn.go_on(Stage::LinkFresh {
            sought,
            fresh,
            prev,
            cur,
        }),
        Goal::Finish { .. } => turn.complete(Answer::yes(0)),
        Goal::Look { .. } | Goal::Take { .. } => turn.complete(Answer::no()),
    }
}

// The search has ended at the item. An insert does not need its fresh cell.
pub(crate) fn search_present<R: Reclaimer>(
    turn: &mut Turn<'_, R>,
    goal: Goal,
    prev: Prev,
    cur: u8,
    next: Option<u8>,
) -> Answer
    ensures same { SameTurn turn.old turn.new }
    ensures ended { (tr : Trace) → Comes R.state turn.old turn.new result (present R.model (memory_at R.state turn.old) turn.old.session goal prev cur next tr) }
{
    match goal {
        Goal::Add { fresh, .. } => {
            turn.memory.put_back(fresh);
            turn.complete(Answer::no())
        }
        Goal::Take { sought } => turn.go_on(Stage::MarkCell {
            sought,
            prev,
            cur,
            next,
        }),
        Goal::Look { .. } | Goal::Finish { .. } => turn.complete(Answer::yes(0)),
    }
}
