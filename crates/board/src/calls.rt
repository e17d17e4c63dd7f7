ghost use Rattle.board.specs.Opens.{Opened, PlayedAs};
ghost use Rattle.board.specs.Runs.{WordDone, RunDone};
ghost use Rattle.board.specs.View.{view};

use crate::board::Board;
use crate::open::Unopened;
use crate::playing::open_and_run;
use items::ItemOrder;
use machine::{Answer, Reason};
use reclaim::Reclaimer;
use std::alloc::Global;

// The calls that open a board and give it words. Each is thin over a function with the same contract, so that an edit
// of it is refused at its own line.
impl<R: Reclaimer> Board<R> {
    // A board for so many items over a reclaimer that has nobody inside and holds nothing.
    // Where it is refused the reclaimer comes back as it was.
    pub fn open(heap: Global, reclaimer: R, items: u16) -> Result<Board<R>, Unopened<R>>
        ensures { Opened R.model R.state reclaimer items result }
    {
        Board::open_over(heap, reclaimer, items)
    }

    // Does one word, by the list of items whose places the words and the cells name.
    // A board that came from an opening by words on one list has come so again, and its whole run keeps the promise.
    pub fn word<T: ItemOrder>(&mut self, items: &[T], word: u32) -> Answer
        ensures { WordDone R.model T.order T.value items.now (view R.state self.old) word (view R.state self.new) result }
    {
        self.do_word(items, word)
    }

    // Does the words in order, writes one answer for each, leaves the other answers as they were, and says how many words there were.
    // A board that came from an opening by words on one list has come so again, and its whole run keeps the promise.
    pub fn run<T: ItemOrder>(
        &mut self,
        items: &[T],
        words: &[u32],
        answers: &mut [Answer],
    ) -> Result<usize, Reason>
        ensures { RunDone R.model T.order T.value items.now (view R.state self.old) words.now answers.old (view R.state self.new) answers.new result }
    {
        self.do_run(items, words, answers)
    }
}

// Opens a board for this list of items and runs the words on it. The whole run keeps the promise.
// Where it is refused, the reclaimer comes back as it was and the answers are untouched.
pub fn play<R: Reclaimer, T: ItemOrder>(
    heap: Global,
    reclaimer: R,
    items: &[T],
    words: &[u32],
    answers: &mut [Answer],
) -> Result<Board<R>, Unopened<R>>
    ensures { PlayedAs R.model R.state T.order T.value reclaimer items.now words.now answers.old answers.new result }
{
    open_and_run(heap, reclaimer, items, words, answers)
}
