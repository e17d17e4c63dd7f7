// The check sum of a load's answers.
ghost use Rattle.std.specs.Prelude.{◌≡◌, ◌+◌, ◌*◌};
ghost use Rattle.loads.specs.Numbers.{mixed};
ghost use Rattle.loads.specs.Answers.{letter_number};

use machine::Answer;

// Takes a number into a sum: 31 times the sum and the number, on 64 bits.
pub fn mix(sum: u64, n: u64) -> u64
    ensures { result ≡ mixed sum n }
{
    sum.wrapping_mul(31).wrapping_add(n)
}

// Takes an answer into a sum: its letter's number in front of its value.
pub fn mix_answer(sum: u64, answer: Answer) -> u64
    ensures { result ≡ mixed sum (letter_number answer.kind * 65536 + answer.value) }
{
    mix(sum, answer.kind as u64 * 65536 + u64::from(answer.value))
}
