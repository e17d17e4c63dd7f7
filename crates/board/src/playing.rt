ghost use Rattle.board.specs.Opens.{PlayedAs};

use crate::board::Board;
use crate::open::Unopened;
use items::ItemOrder;
use machine::{Answer, Reason};
use reclaim::Reclaimer;
use std::alloc::Global;

pub(crate) fn open_and_run<R: Reclaimer, T: ItemOrder>(
    heap: Global,
    reclaimer: R,
    items: &[T],
    words: &[u32],
    answers: &mut [Answer],
) -> Result<Board<R>, Unopened<R>>
    ensures { PlayedAs R.model R.state T.order T.value reclaimer items.now words.now answers.old answers.new result }
{
    if answers.len() < words.len() {
        return Err(Unopened::new(Reason::ShortAnswers, reclaimer));
    }
    if items.len() > 1024 {
        return Err(Unopened::new(Reason::Sizes, reclaimer));
    }
    let mut board = Board::open_over(heap, reclaimer, items.len() as u16)?;
    let _ = board.do_run(items, words, answers);
    Ok(board)
}
