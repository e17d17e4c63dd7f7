ghost use Rattle.std.specs.Prelude.{◌≡◌, ◌<◌};
ghost use Rattle.machine.specs.Answers.{tidied};
ghost use Rattle.machine.specs.Machine.{landed, moving, tidily, tidyings};
ghost use Rattle.machine.specs.Serial.{compared};
ghost use Rattle.board.specs.Runs.{WordDone};
ghost use Rattle.board.specs.View.{view};

use crate::board::Board;
use items::ItemOrder;
use machine::{Answer, Kind, Reason, Word};
use memory::Turn;
use reclaim::Reclaimer;
use steps::act;

impl<R: Reclaimer> Board<R> {
    // A word for one session: its stage and the word's kind decide, and the stage moves in place.
    fn move_session<T: ItemOrder>(&mut self, session: u8, items: &[T], kind: Kind) -> Answer
        requires { session < 8 }
        ensures after { view R.state self.new ≡ (landed R.model (view R.state self.old) session (moving R.model (compared T.order T.value items.now) (view R.state self.old).memory session ((view R.state self.old).stage session) kind)).after }
        ensures answer { result ≡ (moving R.model (compared T.order T.value items.now) (view R.state self.old).memory session ((view R.state self.old).stage session) kind).answer }
    {
        let mut turn = Turn {
            memory: &mut self.memory,
            session,
            stage: &mut self.stages[session as usize],
        };
        act(&mut turn, items, kind)
    }

    fn tidy(&mut self) -> Answer
        ensures after { view R.state self.new ≡ (tidily R.model (view R.state self.old) (tidyings R.model (view R.state self.old).memory)).after }
        ensures answer { result ≡ tidied (tidyings R.model (view R.state self.old).memory).given }
    {
        Answer::tidied(self.memory.tidy())
    }

    // The checks of a word in their order, then what it asks for.
    pub(crate) fn do_word<T: ItemOrder>(&mut self, items: &[T], word: u32) -> Answer
        ensures { WordDone R.model T.order T.value items.now (view R.state self.old) word (view R.state self.new) result }
    {
        if items.len() != self.items as usize {
            return Answer::refused(Reason::OtherItems);
        }
        match Word::parse(word, self.sessions, self.items) {
            Err(why) => Answer::refused(why),
            Ok(Word::Tidy) => self.tidy(),
            Ok(Word::Of { session, kind }) => self.move_session(session, items, kind),
        }
    }
}
