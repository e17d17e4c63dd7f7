ghost use Rattle.slotlock_c.specs.Records.{as_record};

use board::KeptAnswer;
use machine::Answer;

// An answer as C sees it: the letter w, y, n, t or r, and the value.
#[derive(Clone, Copy)]
#[repr(C)]
pub struct AnswerRecord {
    pub letter: u8,
    pub value: u16,
}

impl KeptAnswer for AnswerRecord {
    ghost kept = { as_record };

    fn keep(answer: Answer) -> AnswerRecord {
        AnswerRecord {
            letter: answer.kind.letter(),
            value: answer.value,
        }
    }
}
