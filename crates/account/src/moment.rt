// What can be seen of one word: what was asked, where its session stood before and after, and the answer.
ghost use Rattle.std.specs.Prelude.{◌≡◌, Some, None};
ghost use Rattle.machine.specs.declared.cell.Prev.TheVariants.{Front, At};
ghost use Rattle.machine.specs.declared.stage.Stage.TheVariants.{LinkFresh, MarkCell};

use machine::{Answer, Cell, Op, Prev, Reason, Search, Stage, Word};

// How many cells are held and free.
#[derive(Clone, Copy, PartialEq, Eq, Debug)]
pub struct Tallies {
    pub held: u16,
    pub free: u16,
}

impl From<(u16, u16)> for Tallies {
    ghost from_gives = { λ pair tallies. (tallies.held ≡ pair.0) × (tallies.free ≡ pair.1) };

    fn from(pair: (u16, u16)) -> Tallies {
        let (held, free) = pair;
        Tallies { held, free }
    }
}

#[derive(Clone, Copy, PartialEq, Eq, Debug)]
pub struct Moment {
    pub word: u32,
    pub asked: Result<Word, Reason>,
    pub answer: Answer,
    pub before: Stage,
    pub after: Stage,
    // the operation that the session is in, or has just ended
    pub op: Option<Op>,
    pub tallies_before: Tallies,
    // as they are after the word
    pub tallies: Tallies,
    pub head: Option<u8>,
    pub front: Option<u8>,
    // the cell whose link the step compared, as it is after the word
    pub compared: Option<Cell>,
    // whether another session ended an operation since this one's last word
    pub woke: bool,
}

// The cell whose link the next step of a stage compares with what it has read.
pub fn compared_at(stage: Stage) -> Option<u8>
    ensures marks { (sought prev cur next : _) → stage ≡ MarkCell sought prev cur next → result ≡ Some cur }
    ensures links { (sought fresh cell cur : _) → stage ≡ LinkFresh sought fresh (At cell) cur → result ≡ Some cell }
    ensures first { (sought fresh cur : _) → stage ≡ LinkFresh sought fresh Front cur → result ≡ None }
{
    match stage {
        Stage::Find {
            at: Search::CheckPrev { prev, .. } | Search::Unlink { prev, .. },
            ..
        }
        | Stage::LinkFresh { prev, .. }
        | Stage::RemoveCell { prev, .. } => match prev {
            Prev::Front => None,
            Prev::At(cell) => Some(cell),
        },
        Stage::Find {
            at: Search::ConfirmCell { cur, .. },
            ..
        }
        | Stage::MarkCell { cur, .. } => Some(cur),
        _ => None,
    }
}
