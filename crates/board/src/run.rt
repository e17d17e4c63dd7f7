ghost use Rattle.std.specs.Prelude.{◌≡◌, ◌<◌, ◌≤◌, ◌++◌, min, map, length, take, drop, slice_set};
ghost use Rattle.machine.specs.Machine.{worded, ran};
ghost use Rattle.machine.specs.Laws.{Carries};
ghost use Rattle.machine.specs.Serial.{compared};
ghost use Rattle.board.specs.Runs.{RunDone};
ghost use Rattle.board.specs.View.{view};

use crate::board::Board;
use crate::kept::KeptAnswer;
use items::ItemOrder;
use machine::{Answer, Reason};
use reclaim::Reclaimer;

impl<R: Reclaimer> Board<R> {
    // Does a word, and writes its answer at a place.
    fn do_at<T: ItemOrder, A: KeptAnswer>(
        &mut self,
        items: &[T],
        word: u32,
        answers: &mut [A],
        at: usize,
    )
        requires { at < length answers.old }
        ensures after { view R.state self.new ≡ (worded R.model (compared T.order T.value items.now) (length items.now) (view R.state self.old) word).after }
        ensures written { answers.new ≡ slice_set answers.old at (A.kept (worded R.model (compared T.order T.value items.now) (length items.now) (view R.state self.old) word).answer) }
    {
        answers[at] = A::keep(self.do_word(items, word));
    }

    // Does each word, and writes its answer at its place.
    fn each<T: ItemOrder, A: KeptAnswer>(&mut self, items: &[T], words: &[u32], answers: &mut [A])
        requires { length words.now ≤ length answers.old }
        ensures after { view R.state self.new ≡ (ran R.model (compared T.order T.value items.now) (length items.now) (view R.state self.old) words.now).after }
        ensures written { answers.new ≡ map A.kept (ran R.model (compared T.order T.value items.now) (length items.now) (view R.state self.old) words.now).answers ++ drop (length words.now) answers.old }
    {
        // By places: what a word does to one place of the answers is proved by itself.
        for (i, word) in words.iter().enumerate() {
            self.do_at(items, *word, answers, i);
        }
    }

    // Does as many words as there are answers, and writes each answer at its place. Like `word`, it carries the promise on.
    pub fn answer_each<T: ItemOrder, A: KeptAnswer>(
        &mut self,
        items: &[T],
        words: &[u32],
        answers: &mut [A],
    )
        ensures after { let n = min (length words.now) (length answers.old) in view R.state self.new ≡ (ran R.model (compared T.order T.value items.now) (length items.now) (view R.state self.old) (take n words.now)).after }
        ensures written { let n = min (length words.now) (length answers.old) in answers.new ≡ map A.kept (ran R.model (compared T.order T.value items.now) (length items.now) (view R.state self.old) (take n words.now)).answers ++ drop n answers.old }
        ensures promise { let n = min (length words.now) (length answers.old) in Carries R.model T.order T.value items.now (view R.state self.old) (view R.state self.new) (ran R.model (compared T.order T.value items.now) (length items.now) (view R.state self.old) (take n words.now)).seen }
    {
        let count = words.len().min(answers.len());
        self.each(items, &words[..count], answers);
    }

    pub(crate) fn do_run<T: ItemOrder>(
        &mut self,
        items: &[T],
        words: &[u32],
        answers: &mut [Answer],
    ) -> Result<usize, Reason>
        ensures { RunDone R.model T.order T.value items.now (view R.state self.old) words.now answers.old (view R.state self.new) answers.new result }
    {
        if items.len() != self.items as usize {
            return Err(Reason::OtherItems);
        }
        if answers.len() < words.len() {
            return Err(Reason::ShortAnswers);
        }
        self.each(items, words, answers);
        Ok(words.len())
    }
}
