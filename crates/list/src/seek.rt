ghost use Rattle.std.specs.Prelude.{[]};
ghost use Rattle.machine.specs.declared.stage.Search.TheVariants.{ReadFront};
ghost use Rattle.machine.specs.declared.stage.Stage.TheVariants.{Find};
ghost use Rattle.machine.specs.Machine.{on};
ghost use Rattle.memory.specs.Turns.{memory_at, Comes};

use machine::{Answer, Goal, Search, Stage};
use memory::Turn;
use reclaim::Reclaimer;

// The search goes on at another stage.
pub(crate) fn seek<R: Reclaimer>(turn: &mut Turn<'_, R>, goal: Goal, at: Search) -> Answer
    ensures { Comes R.state turn.old turn.new result (on R.model (memory_at R.state turn.old) (Find goal at) []) }
{
    turn.go_on(Stage::Find { goal, at })
}

// The search begins at the front, again where a link has changed.
pub(crate) fn seek_again<R: Reclaimer>(turn: &mut Turn<'_, R>, goal: Goal) -> Answer
    ensures { Comes R.state turn.old turn.new result (on R.model (memory_at R.state turn.old) (Find goal ReadFront) []) }
{
    seek(turn, goal, Search::ReadFront)
}
