ghost use Rattle.std.specs.Prelude.{◌≡◌};
ghost use Rattle.machine.specs.declared.answer.Answer.{Answer as Said};

use machine::Answer;

// What a caller's list keeps of an answer.
pub trait KeptAnswer: Drop {
    ghost kept: { Said → Self };

    fn keep(answer: Answer) -> Self
        ensures { result ≡ kept answer };
}

impl KeptAnswer for Answer {
    ghost kept = { λ answer. answer };

    fn keep(answer: Answer) -> Answer {
        answer
    }
}
