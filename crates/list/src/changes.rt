ghost use Rattle.std.specs.Prelude.{◌≡◌, Some};
ghost use Rattle.machine.specs.declared.cell.Prev.TheVariants.{At};
ghost use Rattle.machine.specs.Machine.{points, written, link_fresh, mark_cell, remove_cell};
ghost use Rattle.memory.specs.Turns.{memory_at, Comes};

use crate::seek::seek_again;
use machine::{Answer, Goal, Prev, Stage};
use memory::Turn;
use reclaim::Reclaimer;

// The fresh cell goes in between prev and the cell.
pub fn link_fresh<R: Reclaimer>(
    turn: &mut Turn<'_, R>,
    sought: u16,
    fresh: u8,
    prev: Prev,
    cur: Option<u8>,
) -> Answer
    ensures { let m = memory_at R.state turn.old in Comes R.state turn.old turn.new result (link_fresh R.model (written R.model m fresh cur) turn.old.session sought fresh prev cur (points (written R.model m fresh cur) prev cur)) }
{
    turn.memory.write_link(fresh, cur);
    if turn.memory.leads_to(prev, cur) {
        turn.memory.relink(prev, Some(fresh));
        turn.complete(Answer::yes(0))
    } else {
        seek_again(turn, Goal::Add { sought, fresh })
    }
}

// The mark decides the delete: from here on only the unlinking is left.
pub fn mark_cell<R: Reclaimer>(
    turn: &mut Turn<'_, R>,
    sought: u16,
    prev: Prev,
    cur: u8,
    next: Option<u8>,
) -> Answer
    ensures { let m = memory_at R.state turn.old in Comes R.state turn.old turn.new result (mark_cell R.model m turn.old.session sought prev cur next (points m (At cur) next)) }
{
    if turn.memory.leads_to(Prev::At(cur), next) {
        turn.memory.mark(cur);
        turn.go_on(Stage::RemoveCell {
            sought,
            prev,
            cur,
            next,
        })
    } else {
        seek_again(turn, Goal::Take { sought })
    }
}

// Unlinks the marked cell, or leaves that to a search that finishes the delete.
pub fn remove_cell<R: Reclaimer>(
    turn: &mut Turn<'_, R>,
    sought: u16,
    prev: Prev,
    cur: u8,
    next: Option<u8>,
) -> Answer
    ensures { let m = memory_at R.state turn.old in Comes R.state turn.old turn.new result (remove_cell R.model m turn.old.session sought prev cur next (points m prev (Some cur))) }
{
    if turn.memory.leads_to(prev, Some(cur)) {
        turn.memory.relink(prev, next);
        turn.memory.retire(cur);
        turn.complete(Answer::yes(0))
    } else {
        seek_again(turn, Goal::Finish { sought })
    }
}
