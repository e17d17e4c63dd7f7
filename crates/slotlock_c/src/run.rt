ghost use Rattle.std.specs.Prelude.{◌≡◌, ◌≤◌, length};
ghost use Rattle.board.specs.View.{view};
ghost use Rattle.slotlock_c.specs.Plays.{RunOn, RunOver};
ghost use Rattle.slotlock_c.specs.Reports.{done};

use crate::record::AnswerRecord;
use crate::report::{Report, refused};
use board::{Board, Unopened};
use items::ItemOrder;
use machine::Reason;
use reclaim::{Reclaimer, Unmade};
use std::alloc::Global;

// The report of a board after so many words.
fn report_of<R: Reclaimer>(board: &Board<R>, words: usize) -> Report
    ensures { result ≡ done R.model (view R.state board.now) words }
{
    let (held, free) = board.tallies();
    Report {
        error: 0,
        held,
        free,
        words: words as u64,
    }
}

// Opens a board over the reclaimer, runs the words on it and reports.
fn run_on<R: Reclaimer + Drop, T: ItemOrder>(
    heap: Global,
    reclaimer: R,
    items: &[T],
    words: &[u32],
    answers: &mut [AnswerRecord],
) -> Report
    requires enough { length words.now ≤ length answers.old }
    requires few { length items.now ≤ 1024 }
    ensures { RunOn R.model T.order T.value (R.state reclaimer) items.now words.now answers.old answers.new result }
{
    match Board::open(heap, reclaimer, items.len() as u16) {
        Err(Unopened { why, reclaimer: _ }) => refused(why.code()),
        Ok(mut board) => {
            board.answer_each(items, words, answers);
            report_of(&board, words.len())
        }
    }
}

// The checks that need no reclaimer, then the run over the one that was made. Not `play`: that a reclaimer was not made
// is told after these checks.
pub(crate) fn run_over<R: Reclaimer + Drop, T: ItemOrder>(
    heap: Global,
    made: Result<R, Unmade>,
    items: &[T],
    words: &[u32],
    answers: &mut [AnswerRecord],
) -> Report
    ensures { RunOver R.model R.state T.order T.value made items.now words.now answers.old answers.new result }
{
    if answers.len() < words.len() {
        return refused(Reason::ShortAnswers.code());
    }
    if items.len() > 1024 {
        return refused(Reason::Sizes.code());
    }
    match made {
        Ok(reclaimer) => run_on(heap, reclaimer, items, words, answers),
        Err(why) => refused(why.code()),
    }
}
