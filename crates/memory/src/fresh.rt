ghost use Rattle.std.specs.Prelude.{◌≡◌};
ghost use Rattle.machine.specs.Machine.{put_back};
ghost use Rattle.memory.specs.Of.{memory_of};
ghost use Rattle.memory.specs.Fresh.{takes};

use crate::memory::Memory;
use reclaim::Reclaimer;

impl<R: Reclaimer> Memory<R> {
    // A fresh cell: the top of the free stack, else what the reclaimer gives back.
    pub fn fresh(&mut self) -> Option<u8>
        ensures after { memory_of R.state self.new ≡ (takes R.model (memory_of R.state self.old)).0 }
        ensures value { result ≡ (takes R.model (memory_of R.state self.old)).1 }
    {
        if let Some(c) = self.free.take() {
            return Some(c);
        }
        self.reclaimer.collect()
    }

    // A fresh cell that was not linked goes back on the free stack.
    pub fn put_back(&mut self, c: u8)
        ensures { memory_of R.state self.new ≡ put_back R.model (memory_of R.state self.old) c }
    {
        self.free.put(c);
    }
}
