ghost use Rattle.machine.specs.Serial.{compared};
ghost use Rattle.machine.specs.Machine.{moving};
ghost use Rattle.memory.specs.Turns.{memory_at, Comes};

use crate::begin::begin_op;
use items::ItemOrder;
use list::{link_fresh, mark_cell, remove_cell, search_step};
use machine::{Answer, Kind, Reason, Stage};
use memory::Turn;
use reclaim::Reclaimer;
use stack::{
    pop_check_head, pop_protect_top, pop_read_head, pop_read_top, pop_swap_head, push_read_head,
    push_swap_head,
};

// The session's own stage and the word's kind together decide what happens; memory and stage are moved in place.
pub fn act<R: Reclaimer, T: ItemOrder>(turn: &mut Turn<'_, R>, items: &[T], kind: Kind) -> Answer
    ensures { Comes R.state turn.old turn.new result (moving R.model (compared T.order T.value items.now) (memory_at R.state turn.old) turn.old.session turn.old.stage.now kind) }
{
    match (*turn.stage, kind) {
        (Stage::Outside, Kind::Begin(op)) => begin_op(turn, op),
        (Stage::Outside, Kind::Step) => Answer::refused(Reason::Outside),
        (Stage::PushReadHead { fresh }, Kind::Step) => push_read_head(turn, fresh),
        (Stage::PushSwapHead { fresh, head }, Kind::Step) => push_swap_head(turn, fresh, head),
        (Stage::PopReadHead, Kind::Step) => pop_read_head(turn),
        (Stage::PopProtectTop { top }, Kind::Step) => pop_protect_top(turn, top),
        (Stage::PopCheckHead { top }, Kind::Step) => pop_check_head(turn, top),
        (Stage::PopReadTop { top }, Kind::Step) => pop_read_top(turn, top),
        (Stage::PopSwapHead { top, next, place }, Kind::Step) => {
            pop_swap_head(turn, top, next, place)
        }
        (Stage::Find { goal, at }, Kind::Step) => search_step(turn, items, goal, at),
        (
            Stage::LinkFresh {
                sought,
                fresh,
                prev,
                cur,
            },
            Kind::Step,
        ) => link_fresh(turn, sought, fresh, prev, cur),
        (
            Stage::MarkCell {
                sought,
                prev,
                cur,
                next,
            },
            Kind::Step,
        ) => mark_cell(turn, sought, prev, cur, next),
        (
            Stage::RemoveCell {
                sought,
                prev,
                cur,
                next,
            },
            Kind::Step,
        ) => remove_cell(turn, sought, prev, cur, next),
        (_, Kind::Begin(_)) => Answer::refused(Reason::Inside),
    }
}
