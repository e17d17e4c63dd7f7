ghost use Rattle.slotlock_c.specs.Plays.{ReportedBy, NumbersPlayed};
ghost use Rattle.reclaim.specs.Schemes.{scheme_numbered};

use crate::bytes::cut;
use crate::record::AnswerRecord;
use crate::report::{Report, refused};
use crate::run::run_over;
use items::ItemOrder;
use reclaim::{Epochs, HazardPointers, NoScheme, QuiescentStates, Scheme};
use std::alloc::Global;

// Runs the words over the scheme of this number, whose model the contract names.
fn play_over<T: ItemOrder>(
    heap: Global,
    scheme: u8,
    sessions: u8,
    cells: u16,
    items: &[T],
    words: &[u32],
    answers: &mut [AnswerRecord],
) -> Report
    ensures { ReportedBy (scheme_numbered scheme) sessions cells T.order T.value items.now words.now answers.old answers.new result }
{
    match Scheme::try_from(scheme) {
        Err(NoScheme) => refused(1),
        Ok(Scheme::Hazard) => run_over(
            heap,
            HazardPointers::new(heap, sessions, cells),
            items,
            words,
            answers,
        ),
        Ok(Scheme::Epoch) => run_over(
            heap,
            Epochs::new(heap, sessions, cells),
            items,
            words,
            answers,
        ),
        Ok(Scheme::Quiescent) => run_over(
            heap,
            QuiescentStates::new(heap, sessions, cells),
            items,
            words,
            answers,
        ),
    }
}

// Runs the words on a new board over numbers.
#[unsafe(no_mangle)]
pub extern "C" fn slotlock_play_numbers(
    heap: Global,
    scheme: u8,
    sessions: u8,
    cells: u16,
    items: &[u32],
    words: &[u32],
    answers: &mut [AnswerRecord],
) -> Report
    ensures { NumbersPlayed scheme sessions cells items.now words.now answers.old answers.new result }
{
    play_over(heap, scheme, sessions, cells, items, words, answers)
}

// Runs the words on a new board over byte strings: `lengths[i]` bytes each, one after another.
#[unsafe(no_mangle)]
pub extern "C" fn slotlock_play_bytes(
    heap: Global,
    scheme: u8,
    sessions: u8,
    cells: u16,
    bytes: &[u8],
    lengths: &[u8],
    words: &[u32],
    answers: &mut [AnswerRecord],
) -> Report {
    match cut(heap, bytes, lengths) {
        Err(why) => refused(why.code()),
        Ok(strings) => play_over(heap, scheme, sessions, cells, &strings, words, answers),
    }
}
