// The line of a load.
use crate::figures::{Done, Figures};
use crate::load::Load;
use machine::Reason;
use schedule::Keyword;
use std::fmt;

#[derive(Clone, Copy)]
pub struct Report {
    pub load: Load,
    pub outcome: Result<Done, Reason>,
}

impl fmt::Display for Load {
    fn fmt<W: fmt::Write>(&self, f: &mut fmt::Formatter<W>) -> fmt::Result {
        let Load {
            sessions,
            cells,
            keys,
            ..
        } = *self;
        write!(
            f,
            "{} {sessions} sessions {cells} cells {} {keys} keys",
            self.scheme.name(),
            self.sort.name()
        )
    }
}

impl fmt::Display for Report {
    fn fmt<W: fmt::Write>(&self, f: &mut fmt::Formatter<W>) -> fmt::Result {
        let load = self.load;
        match self.outcome {
            Err(why) => write!(f, "{load}: refused {}", why.code()),
            Ok(
                Done {
                    figures,
                    held,
                    free,
                },
            ) => {
                let Load { seed, turns, .. } = load;
                let Figures {
                    words,
                    operations,
                    sum,
                    ..
                } = figures;
                write!(
                    f,
                    "{load} {} seed {seed} turns {turns}: words {words} operations {operations} sum {sum:016x} held {held} free {free}",
                    load.mode.name()
                )
            }
        }
    }
}
