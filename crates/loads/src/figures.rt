// What a load comes to.
ghost use Rattle.std.specs.Prelude.{◌≡◌, ◌+◌, ◌*◌, max};
ghost use Rattle.loads.specs.Numbers.{mixed};
ghost use Rattle.loads.specs.Answers.{letter_number, counted, ends, refuses};

use crate::sum::mix_answer;
use machine::{Answer, AnswerKind};

#[derive(Clone, Copy, PartialEq, Eq, Debug, Default)]
pub struct Figures {
    pub words: u64,
    // answers yes and no
    pub operations: u64,
    pub refusals: u64,
    pub most_held: u16,
    pub sum: u64,
}

// What a load that was not refused came to: its figures, and the cells held and free at its end.
#[derive(Clone, Copy, PartialEq, Eq, Debug)]
pub struct Done {
    pub figures: Figures,
    pub held: u16,
    pub free: u16,
}

impl Figures {
    // Counts an answer, after which so many cells are held.
    pub(crate) fn count(&mut self, answer: Answer, held: u16)
        ensures words { self.new.words ≡ counted self.old.words 1 }
        ensures operations { self.new.operations ≡ counted self.old.operations (ends answer.kind) }
        ensures refusals { self.new.refusals ≡ counted self.old.refusals (refuses answer.kind) }
        ensures most { self.new.most_held ≡ max self.old.most_held held }
        ensures sum { self.new.sum ≡ mixed self.old.sum (letter_number answer.kind * 65536 + answer.value) }
    {
        let ended = matches!(answer.kind, AnswerKind::Yes | AnswerKind::No);
        let refused = answer.kind == AnswerKind::Refused;
        self.words = self.words.saturating_add(1);
        self.operations = self.operations.saturating_add(u64::from(ended));
        self.refusals = self.refusals.saturating_add(u64::from(refused));
        self.most_held = self.most_held.max(held);
        self.sum = mix_answer(self.sum, answer);
    }
}
