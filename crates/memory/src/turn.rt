ghost use Rattle.std.specs.Prelude.{[]};
ghost use Rattle.machine.specs.Machine.{on, over};
ghost use Rattle.memory.specs.Turns.{memory_at, Comes};

use crate::memory::Memory;
use machine::{Answer, Stage};
use reclaim::Reclaimer;

// The turn of a session: the memory that its step moves, and where it stands.
#[derive(Drop)]
pub struct Turn<'a, R> {
    pub memory: &'a mut Memory<R>,
    pub session: u8,
    pub stage: &'a mut Stage,
}

impl<R: Reclaimer> Turn<'_, R> {
    // The session's operation goes on at another stage.
    pub fn go_on(&mut self, next: Stage) -> Answer
        ensures { Comes R.state self.old self.new result (on R.model (memory_at R.state self.old) next []) }
    {
        *self.stage = next;
        Answer::under_way()
    }

    // The session's operation completes: the session leaves.
    pub fn complete(&mut self, answer: Answer) -> Answer
        ensures { Comes R.state self.old self.new result (over R.model (memory_at R.state self.old) self.old.session answer []) }
    {
        self.memory.leave(self.session);
        *self.stage = Stage::Outside;
        answer
    }
}
