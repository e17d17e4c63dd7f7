ghost use Rattle.std.specs.Prelude.{◌≡◌, [], Some};
ghost use Rattle.machine.specs.declared.cell.Prev.TheVariants.{Front, At};
ghost use Rattle.machine.specs.declared.stage.Search.TheVariants.{CheckFront, ReadCell, CheckPrev, ShiftCur};
ghost use Rattle.machine.specs.declared.stage.Stage.TheVariants.{Find};
ghost use Rattle.machine.specs.Serial.{compared};
ghost use Rattle.machine.specs.Machine.{sought, points, protected, on, read_front, check_front, read_cell, check_prev, confirm_cell, unlink_marked, stepping};
ghost use Rattle.memory.specs.Turns.{memory_at, Comes};

use crate::ends::{search_absent, search_present};
use crate::places::compare_places;
use crate::seek::{seek, seek_again};
use items::ItemOrder;
use machine::{Answer, Cell, Goal, Prev, Search, Stage};
use memory::Turn;
use reclaim::Reclaimer;
use std::cmp::Ordering;

// Reads the front; an empty list ends the search.
fn read_front<R: Reclaimer>(turn: &mut Turn<'_, R>, goal: Goal) -> Answer
    ensures { let m = memory_at R.state turn.old in Comes R.state turn.old turn.new result (read_front R.model m turn.old.session goal m.front) }
{
    let Some(cur) = turn.memory.front() else {
        return search_absent(turn, goal, Prev::Front, None);
    };
    seek(turn, goal, Search::ProtectFirst { cur })
}

fn protect_first<R: Reclaimer>(turn: &mut Turn<'_, R>, goal: Goal, cur: u8) -> Answer
    ensures { let m = memory_at R.state turn.old in Comes R.state turn.old turn.new result (on R.model (protected R.model m turn.old.session 1 cur) (Find goal (CheckFront cur)) []) }
{
    turn.memory.protect(turn.session, 1, cur);
    seek(turn, goal, Search::CheckFront { cur })
}

// Only a cell that the front still leads to after it was protected may be touched.
fn check_front<R: Reclaimer>(turn: &mut Turn<'_, R>, goal: Goal, cur: u8) -> Answer
    ensures { let m = memory_at R.state turn.old in Comes R.state turn.old turn.new result (check_front R.model m turn.old.session goal cur (points m Front (Some cur))) }
{
    if turn.memory.leads_to(Prev::Front, Some(cur)) {
        seek(
            turn,
            goal,
            Search::ReadCell {
                prev: Prev::Front,
                cur,
            },
        )
    } else {
        seek_again(turn, goal)
    }
}

// Touches the cell and reads its link and its item's place.
fn read_cell<R: Reclaimer>(turn: &mut Turn<'_, R>, goal: Goal, prev: Prev, cur: u8) -> Answer
    ensures { let m = memory_at R.state turn.old in Comes R.state turn.old turn.new result (read_cell R.model m turn.old.session goal prev cur (m.link cur)) }
{
    let Cell { place, link } = turn.memory.cell(cur);
    let marked = link.marked;
    let Some(next) = link.to else {
        return seek(
            turn,
            goal,
            Search::CheckPrev {
                prev,
                cur,
                marked,
                next: None,
                place,
            },
        );
    };
    seek(
        turn,
        goal,
        Search::ProtectNext {
            prev,
            cur,
            marked,
            next,
            place,
        },
    )
}

fn protect_next<R: Reclaimer>(
    turn: &mut Turn<'_, R>,
    goal: Goal,
    prev: Prev,
    cur: u8,
    marked: bool,
    next: u8,
    place: u16,
) -> Answer
    ensures { let m = memory_at R.state turn.old in Comes R.state turn.old turn.new result (on R.model (protected R.model m turn.old.session 0 next) (Find goal (CheckPrev prev cur marked (Some next) place)) []) }
{
    turn.memory.protect(turn.session, 0, next);
    let next = Some(next);
    seek(
        turn,
        goal,
        Search::CheckPrev {
            prev,
            cur,
            marked,
            next,
            place,
        },
    )
}

// Whether prev still leads to the cell, and how the item compares.
fn check_prev<R: Reclaimer, T: ItemOrder>(
    turn: &mut Turn<'_, R>,
    items: &[T],
    goal: Goal,
    prev: Prev,
    cur: u8,
    marked: bool,
    next: Option<u8>,
    place: u16,
) -> Answer
    ensures { let m = memory_at R.state turn.old in Comes R.state turn.old turn.new result (check_prev R.model m turn.old.session goal prev cur marked next place (points m prev (Some cur)) (compared T.order T.value items.now place (sought goal))) }
{
    if !turn.memory.leads_to(prev, Some(cur)) {
        return seek_again(turn, goal);
    }
    if marked {
        return seek(turn, goal, Search::Unlink { prev, cur, next });
    }
    if compare_places(items, place, goal.sought()) == Ordering::Greater {
        return search_absent(turn, goal, prev, Some(cur));
    }
    seek(
        turn,
        goal,
        Search::ConfirmCell {
            prev,
            cur,
            next,
            place,
        },
    )
}

// Whether the cell's link is still the one read: then it is the item, or the search goes past it.
fn confirm_cell<R: Reclaimer, T: ItemOrder>(
    turn: &mut Turn<'_, R>,
    items: &[T],
    goal: Goal,
    prev: Prev,
    cur: u8,
    next: Option<u8>,
    place: u16,
) -> Answer
    ensures { let m = memory_at R.state turn.old in Comes R.state turn.old turn.new result (confirm_cell R.model m turn.old.session goal prev cur next (points m (At cur) next) (compared T.order T.value items.now place (sought goal))) }
{
    if !turn.memory.leads_to(Prev::At(cur), next) {
        return seek_again(turn, goal);
    }
    if compare_places(items, place, goal.sought()) == Ordering::Equal {
        return search_present(turn, goal, prev, cur, next);
    }
    let Some(next) = next else {
        return search_absent(turn, goal, Prev::At(cur), None);
    };
    seek(turn, goal, Search::ShiftPrev { cur, next })
}

// The cell becomes prev: slot 2 takes it over before slot 1 gives it away.
fn shift_prev<R: Reclaimer>(turn: &mut Turn<'_, R>, goal: Goal, cur: u8, next: u8) -> Answer
    ensures { let m = memory_at R.state turn.old in Comes R.state turn.old turn.new result (on R.model (protected R.model m turn.old.session 2 cur) (Find goal (ShiftCur (At cur) next)) []) }
{
    turn.memory.protect(turn.session, 2, cur);
    seek(
        turn,
        goal,
        Search::ShiftCur {
            prev: Prev::At(cur),
            next,
        },
    )
}

// The next cell becomes the one looked at.
fn shift_cur<R: Reclaimer>(turn: &mut Turn<'_, R>, goal: Goal, prev: Prev, next: u8) -> Answer
    ensures { let m = memory_at R.state turn.old in Comes R.state turn.old turn.new result (on R.model (protected R.model m turn.old.session 1 next) (Find goal (ReadCell prev next)) []) }
{
    turn.memory.protect(turn.session, 1, next);
    seek(turn, goal, Search::ReadCell { prev, cur: next })
}

// A marked cell that prev still leads to is unlinked on the way.
fn unlink<R: Reclaimer>(
    turn: &mut Turn<'_, R>,
    goal: Goal,
    prev: Prev,
    cur: u8,
    next: Option<u8>,
) -> Answer
    ensures { let m = memory_at R.state turn.old in Comes R.state turn.old turn.new result (unlink_marked R.model m turn.old.session goal prev cur next (points m prev (Some cur))) }
{
    if !turn.memory.leads_to(prev, Some(cur)) {
        return seek_again(turn, goal);
    }
    turn.memory.relink(prev, next);
    turn.memory.retire(cur);
    let Some(next) = next else {
        return search_absent(turn, goal, prev, None);
    };
    seek(turn, goal, Search::ShiftCur { prev, next })
}

// One step of a search: where it stands says which, as in the table of all steps.
pub fn search_step<R: Reclaimer, T: ItemOrder>(
    turn: &mut Turn<'_, R>,
    items: &[T],
    goal: Goal,
    at: Search,
) -> Answer
    ensures { let m = memory_at R.state turn.old in Comes R.state turn.old turn.new result (stepping R.model (compared T.order T.value items.now) m turn.old.session (Find goal at)) }
{
    match at {
        Search::ReadFront => read_front(turn, goal),
        Search::ProtectFirst { cur } => protect_first(turn, goal, cur),
        Search::CheckFront { cur } => check_front(turn, goal, cur),
        Search::ReadCell { prev, cur } => read_cell(turn, goal, prev, cur),
        Search::ProtectNext {
            prev,
            cur,
            marked,
            next,
            place,
        } => protect_next(turn, goal, prev, cur, marked, next, place),
        Search::CheckPrev {
            prev,
            cur,
            marked,
            next,
            place,
        } => check_prev(turn, items, goal, prev, cur, marked, next, place),
        Search::ConfirmCell {
            prev,
            cur,
            next,
            place,
        } => confirm_cell(turn, items, goal, prev, cur, next, place),
        Search::ShiftPrev { cur, next } => shift_prev(turn, goal, cur, next),
        Search::ShiftCur { prev, next } => shift_cur(turn, goal, prev, next),
        Search::Unlink { prev, cur, next } => unlink(turn, goal, prev, cur, next),
    }
}
