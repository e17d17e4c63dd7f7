// The steps of push and pop: a stack whose head is swapped by one compare at a time.
#![tactic(auto)]

ghost use Rattle.std.specs.Prelude.{[], ◌∷◌, Some};
ghost use Rattle.machine.specs.declared.stage.Stage.TheVariants.{PushSwapHead, PopCheckHead, PopSwapHead};
ghost use Rattle.machine.specs.Machine.{touches, same, written, protected, on, push_swap, pop_read, pop_check, pop_swap};
ghost use Rattle.memory.specs.Turns.{memory_at, Comes};

use machine::{Answer, Cell, Stage};
use memory::{Turn, same_cell};
use reclaim::Reclaimer;

// Reads the head and writes it into the fresh cell's link.
pub fn push_read_head<R: Reclaimer>(turn: &mut Turn<'_, R>, fresh: u8) -> Answer
    ensures { let m = memory_at R.state turn.old in Comes R.state turn.old turn.new result (on R.model (written R.model m fresh m.head) (PushSwapHead fresh m.head) []) }
{
    let head = turn.memory.head();
    turn.memory.write_link(fresh, head);
    turn.go_on(Stage::PushSwapHead { fresh, head })
}

// If the head is still the one read, it becomes the fresh cell.
pub fn push_swap_head<R: Reclaimer>(turn: &mut Turn<'_, R>, fresh: u8, head: Option<u8>) -> Answer
    ensures { let m = memory_at R.state turn.old in Comes R.state turn.old turn.new result (push_swap R.model m turn.old.session fresh (same m.head head)) }
{
    if same_cell(turn.memory.head(), head) {
        turn.memory.set_head(Some(fresh));
        turn.complete(Answer::yes(0))
    } else {
        turn.go_on(Stage::PushReadHead { fresh })
    }
}

// Reads the head; an empty stack ends the pop.
pub fn pop_read_head<R: Reclaimer>(turn: &mut Turn<'_, R>) -> Answer
    ensures { let m = memory_at R.state turn.old in Comes R.state turn.old turn.new result (pop_read R.model m turn.old.session m.head) }
{
    let Some(top) = turn.memory.head() else {
        return turn.complete(Answer::no());
    };
    turn.go_on(Stage::PopProtectTop { top })
}

pub fn pop_protect_top<R: Reclaimer>(turn: &mut Turn<'_, R>, top: u8) -> Answer
    ensures { let m = memory_at R.state turn.old in Comes R.state turn.old turn.new result (on R.model (protected R.model m turn.old.session 0 top) (PopCheckHead top) []) }
{
    turn.memory.protect(turn.session, 0, top);
    turn.go_on(Stage::PopCheckHead { top })
}

// Only a top that is still the head after it was protected may be touched.
pub fn pop_check_head<R: Reclaimer>(turn: &mut Turn<'_, R>, top: u8) -> Answer
    ensures { let m = memory_at R.state turn.old in Comes R.state turn.old turn.new result (pop_check R.model m turn.old.session top (same m.head (Some top))) }
{
    let still = same_cell(turn.memory.head(), Some(top));
    if still {
        turn.go_on(Stage::PopReadTop { top })
    } else {
        turn.go_on(Stage::PopReadHead)
    }
}

// Touches the top and reads its link and its item's place.
pub fn pop_read_top<R: Reclaimer>(turn: &mut Turn<'_, R>, top: u8) -> Answer
    ensures { let m = memory_at R.state turn.old in Comes R.state turn.old turn.new result (on R.model m (PopSwapHead top (m.link top) (m.item top)) (touches turn.old.session top ∷ [])) }
{
    let Cell { place, link } = turn.memory.cell(top);
    let next = link.to;
    turn.go_on(Stage::PopSwapHead { top, next, place })
}

// If the head is still the top, the next cell becomes the head, and the top is unlinked.
pub fn pop_swap_head<R: Reclaimer>(
    turn: &mut Turn<'_, R>,
    top: u8,
    next: Option<u8>,
    place: u16,
) -> Answer
    ensures { let m = memory_at R.state turn.old in Comes R.state turn.old turn.new result (pop_swap R.model m turn.old.session top next place (same m.head (Some top))) }
{
    if same_cell(turn.memory.head(), Some(top)) {
        turn.memory.set_head(next);
        turn.memory.retire(top);
        turn.complete(Answer::yes(place))
    } else {
        turn.go_on(Stage::PopReadHead)
    }
}
