// Gives the words of a schedule's lines, one after another.
use crate::stop::Stop;
use items::ItemOrder;
use schedule::{Act, Schedule, WordKind, encode};

// The most step words that one `finish` line gives.
pub const MOST_STEPS: u32 = 1_000_000;

pub trait Player {
    // Gives one word, and says whether it is answered by under way.
    fn word<T: ItemOrder>(&mut self, items: &[T], word: u32) -> Result<bool, Stop>;

    // Gives step words to a session until one is answered otherwise than under way.
    fn finish<T: ItemOrder>(&mut self, items: &[T], session: u8) -> Result<(), Stop> {
        for _ in 0..MOST_STEPS {
            if !self.word(items, encode(WordKind::Step, session, 0))? {
                break;
            }
        }
        Ok(())
    }

    // What one line asks for: a plain choice of three, with what each carries.
    fn act<T: ItemOrder>(&mut self, items: &[T], act: Act) -> Result<(), Stop> {
        match act {
            Act::Word(word) => {
                self.word(items, word)?;
            }
            Act::Steps { session, count } => {
                for _ in 0..count {
                    self.word(items, encode(WordKind::Step, session, 0))?;
                }
            }
            Act::Finish { session } => self.finish(items, session)?,
        }
        Ok(())
    }

    // All lines.
    fn play<T: ItemOrder>(&mut self, items: &[T], schedule: &Schedule) -> Result<(), Stop> {
        for line in schedule.lines.iter() {
            self.act(items, line.act)?;
        }
        Ok(())
    }
}
