// The word lines of a schedule.
ghost use Rattle.std.specs.Prelude.{◌≡◌, ◌≤◌, ◌∷◌, ◌++◌, [], OnOk};
ghost use Rattle.std.specs.Slice.Iter.{iter_rest};
ghost use Rattle.schedule.specs.Counts.{total_words};

use crate::content::Line;
use crate::expected::Expected;
use crate::fault::Fault;
use std::alloc::Global;
use std::slice::Iter;

const MOST_WORDS: u32 = 10_000_000;

// Word lines, and what they count for together.
#[derive(Drop)]
pub struct Lines {
    pub lines: Vec<Line>,
    pub words: u32,
    ghost counted: { words ≡ total_words lines.items },
    ghost few: { words ≤ 10000000 },
}

impl Lines {
    pub(crate) fn new(heap: Global) -> Lines {
        Lines {
            lines: Vec::new(heap),
            words: 0,
        }
    }

    // Adds a line, unless that makes too many words.
    #[tactic(auto, using(crate::proofs::Totals::total_push))]
    pub(crate) fn push(&mut self, line: Line) -> Result<(), Fault>
        ensures { OnOk result (self.new.lines.items ≡ self.old.lines.items ++ line ∷ []) }
    {
        let more = line.act.words();
        if more > MOST_WORDS - self.words {
            return Err(Fault::Bad(Expected::FewerWords { most: MOST_WORDS }));
        }
        self.lines.push(line)?;
        self.words += more;
        Ok(())
    }

    pub(crate) fn is_empty(&self) -> bool {
        self.lines.is_empty()
    }

    pub fn iter(&self) -> Iter<'_, Line>
        ensures { iter_rest result ≡ self.now.lines.items }
    {
        self.lines.iter()
    }
}
