ghost use Rattle.std.specs.Prelude.{◌≡◌};
ghost use Rattle.machine.specs.Machine.{tidyings};
ghost use Rattle.memory.specs.Of.{memory_of};
ghost use Rattle.memory.specs.Fresh.{EndedAtNone};

use crate::memory::Memory;
use reclaim::Reclaimer;

impl<R: Reclaimer> Memory<R> {
    // The held cells are counted before and after: what is missing was given back.
    fn collect_all(&mut self) -> u16
        ensures after { memory_of R.state self.new ≡ (tidyings R.model (memory_of R.state self.old)).memory }
        ensures value { result ≡ (tidyings R.model (memory_of R.state self.old)).given }
        ensures none { EndedAtNone R.model (memory_of R.state self.new).reclaimer }
    {
        let held = self.reclaimer.held_count();
        while let Some(c) = self.reclaimer.collect() {
            self.free.put(c);
        }
        held - self.reclaimer.held_count()
    }

    // Collects until none is answered, frees each cell answered, and says how many they were. A call over another, so
    // that an edit of it is refused at its own line.
    pub fn tidy(&mut self) -> u16
        ensures after { memory_of R.state self.new ≡ (tidyings R.model (memory_of R.state self.old)).memory }
        ensures value { result ≡ (tidyings R.model (memory_of R.state self.old)).given }
        ensures none { EndedAtNone R.model (memory_of R.state self.new).reclaimer }
    {
        self.collect_all()
    }
}
