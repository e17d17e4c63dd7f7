ghost use Rattle.std.specs.Prelude.{◌≡◌, ℕ, []};
ghost use Rattle.machine.specs.declared.answer.Reason.TheVariants as reason;
ghost use Rattle.machine.specs.declared.stage.Search.TheVariants.{ReadFront};
ghost use Rattle.machine.specs.declared.stage.Stage.{Stage as Stages};
ghost use Rattle.machine.specs.declared.stage.Stage.TheVariants.{Outside, Find};
ghost use Rattle.machine.specs.Answers.{refused};
ghost use Rattle.machine.specs.Machine.{Adding, first_stage, entered, on, fetched, beginning};
ghost use Rattle.memory.specs.Turns.{memory_at, SameTurn, Comes};

use machine::{Answer, Goal, Op, Reason, Search, Stage};
use memory::Turn;
use reclaim::Reclaimer;

// The session enters, and its operation is at its first stage.
fn enter_at<R: Reclaimer>(turn: &mut Turn<'_, R>, first: Stage) -> Answer
    ensures { let m = memory_at R.state turn.old in Comes R.state turn.old turn.new result (on R.model (entered R.model m turn.old.session) first []) }
{
    turn.memory.enter(turn.session);
    turn.go_on(first)
}

// An operation that searches begins at the front.
fn seek_first<R: Reclaimer>(turn: &mut Turn<'_, R>, goal: Goal) -> Answer
    ensures { let m = memory_at R.state turn.old in Comes R.state turn.old turn.new result (on R.model (entered R.model m turn.old.session) (Find goal ReadFront) []) }
{
    enter_at(
        turn,
        Stage::Find {
            goal,
            at: Search::ReadFront,
        },
    )
}

// Want of a cell leaves the session outside, and the reclaimer as collect left it.
fn no_cell<R: Reclaimer>(turn: &mut Turn<'_, R>) -> Answer
    ensures same { SameTurn turn.old turn.new }
    ensures memory { memory_at R.state turn.new ≡ memory_at R.state turn.old }
    ensures stage { turn.new.stage.now ≡ Outside }
    ensures answer { result ≡ refused reason.NoCell }
{
    *turn.stage = Stage::Outside;
    Answer::refused(Reason::NoCell)
}

// A push or an insert begins with a fresh cell, at the first stage that it has with this cell.
fn begin_fresh<R: Reclaimer, F: FnOnce(u8) -> Stage>(
    turn: &mut Turn<'_, R>,
    place: u16,
    first: F,
) -> Answer
    requires { F.IsAlwaysCallable first }
    ensures same { SameTurn turn.old turn.new }
    ensures begun { let m = memory_at R.state turn.old in (k : Adding) → ((f : ℕ) (s : Stages) → F.post first f s → s ≡ first_stage k place f) → Comes R.state turn.old turn.new result (fetched R.model m turn.old.session k place m.free) }
{
    let Some(fresh) = turn.memory.fresh() else {
        return no_cell(turn);
    };
    turn.memory.fill(fresh, place);
    let stage = first(fresh);
    enter_at(turn, stage)
}

// A begin word of a session outside.
pub(crate) fn begin_op<R: Reclaimer>(turn: &mut Turn<'_, R>, op: Op) -> Answer
    ensures { Comes R.state turn.old turn.new result (beginning R.model (memory_at R.state turn.old) turn.old.session op) }
{
    match op {
        Op::Insert { place } => begin_fresh(
            turn,
            place,
            |fresh| Stage::Find {
                goal: Goal::Add {
                    sought: place,
                    fresh,
                },
                at: Search::ReadFront,
            },
        ),
        Op::Delete { place } => seek_first(turn, Goal::Take { sought: place }),
        Op::Contains { place } => seek_first(turn, Goal::Look { sought: place }),
        Op::Push { place } => begin_fresh(turn, place, |fresh| Stage::PushReadHead { fresh }),
        Op::Pop => enter_at(turn, Stage::PopReadHead),
    }
}
