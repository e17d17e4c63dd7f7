// Gives a board the words of a load.
ghost use Rattle.std.specs.Prelude.{◌≡◌, ◌/◌, ◌%◌, ◌<◌, ◌≤◌};

use crate::begin::begin;
use crate::figures::{Done, Figures};
use crate::generator::Generator;
use crate::load::{Load, Mode};
use board::Board;
use items::ItemOrder;
use machine::{Answer, AnswerKind, session_of};
use reclaim::Reclaimer;
use schedule::{WordKind, encode};

// More steps than any operation takes that runs alone. The commands go on by a loop of their own, which prints and can
// stop.
const MOST_STEPS: u32 = 1_000_000;

// A board with its list of items, and what a load has come to on it.
pub(crate) struct Driver<'a, R, T> {
    board: Board<R>,
    items: &'a [T],
    load: Load,
    numbers: Generator,
    // the sessions that are inside an operation
    busy: [bool; 8],
    figures: Figures,
    ghost some: { 0 < load.sessions },
    ghost few: { load.sessions ≤ 8 },
    ghost keyed: { 0 < load.keys },
}

fn step(session: u8) -> u32 {
    encode(WordKind::Step, session, 0)
}

impl<'a, R: Reclaimer + Drop, T: ItemOrder> Driver<'a, R, T> {
    // A driver for 1 to 8 sessions and at least one key, else none.
    pub(crate) fn new(board: Board<R>, items: &'a [T], load: Load) -> Option<Driver<'a, R, T>> {
        if !matches!(load.sessions, 1..=8) || load.keys == 0 {
            return None;
        }
        Some(Driver {
            board,
            items,
            load,
            numbers: Generator { state: load.seed },
            busy: [false; 8],
            figures: Figures::default(),
        })
    }

    // The session that a number draws.
    fn session(&self, r: u64) -> u8
        ensures value { result ≡ r / 8 % self.now.load.sessions }
        ensures bound { result < 8 }
    {
        (r / 8 % u64::from(self.load.sessions)) as u8
    }

    fn begin(&mut self, session: u8) -> u32 {
        let r = self.numbers.next();
        begin(r, session, self.load.keys)
    }

    // A session is busy from a word answered under way to one answered yes or no.
    fn follow(&mut self, word: u32, answer: Answer) {
        let session = usize::from(session_of(word));
        if let Some(busy) = self.busy.get_mut(session) {
            match answer.kind {
                AnswerKind::UnderWay => *busy = true,
                AnswerKind::Yes | AnswerKind::No => *busy = false,
                _ => {}
            }
        }
    }

    fn give(&mut self, word: u32) -> Answer {
        let answer = self.board.word(self.items, word);
        let (held, _) = self.board.tallies();
        self.figures.count(answer, held);
        self.follow(word, answer);
        answer
    }

    // A whole operation of a session.
    fn whole(&mut self, session: u8) {
        let word = self.begin(session);
        let mut answer = self.give(word);
        for _ in 0..MOST_STEPS {
            if answer.kind != AnswerKind::UnderWay {
                return;
            }
            answer = self.give(step(session));
        }
    }

    // A step of a busy session, else tidy now and then, else a begin.
    fn mixed_word(&mut self, r: u64) -> u32 {
        let session = self.session(r);
        if self.busy[session as usize] {
            step(session)
        } else if r / 0x10_0000 % 256 == 0 {
            encode(WordKind::Tidy, 0, 0)
        } else {
            self.begin(session)
        }
    }

    // Now and then a word of any bits, or a step of any session; else as in a mixed turn.
    fn junk_word(&mut self, r: u64) -> u32 {
        match r / 0x100_0000_0000 % 8 {
            0 => (r % 0x1_0000_0000) as u32,
            1 => step((r / 8 % 32) as u8),
            _ => self.mixed_word(r),
        }
    }

    fn turn(&mut self) {
        let r = self.numbers.next();
        let word = match self.load.mode {
            Mode::Whole => {
                let session = self.session(r);
                return self.whole(session);
            }
            Mode::Mixed => self.mixed_word(r),
            Mode::Junk => self.junk_word(r),
        };
        self.give(word);
    }

    // Drives the board for the turns of the load, and says what they came to.
    pub(crate) fn drive(mut self) -> Done {
        for _ in 0..self.load.turns {
            self.turn();
        }
        // Taken apart by name: items need not be `Drop`, so a driver is not.
        let Driver {
            board,
            items: _,
            load: _,
            numbers: _,
            busy: _,
            figures,
        } = self;
        let (held, free) = board.tallies();
        Done {
            figures,
            held,
            free,
        }
    }
}
