// Gives words to a board and keeps what the board itself does not show: operations, announced cells, decisions.
ghost use Rattle.std.specs.Prelude.{◌<◌, IfSome};

use crate::decided::{Decided, verdict};
use account::moment::compared_at;
use account::{Moment, Tallies};
use board::Board;
use items::ItemOrder;
use machine::{AnswerKind, Kind, Op, Search, Stage, Word};
use reclaim::Reclaimer;
use std::alloc::{AllocError, Global};

// A session: its operation, the cells that it announced in its slots since it began, and whether another ended one since its last word.
#[derive(Clone, Copy, Default)]
pub struct Seat {
    pub op: Option<Op>,
    pub announced: [Option<u8>; 3],
    asleep: bool,
}

#[derive(Drop)]
pub struct Watch {
    sessions: u8,
    items: u16,
    seats: [Seat; 8],
    pub decided: Vec<Decided>,
}

// The slot and the cell that a step of a stage protects.
pub fn announces(stage: Stage) -> Option<(u8, u8)>
    ensures { IfSome result (λ (slot, cell). slot < 3) }
{
    match stage {
        Stage::PopProtectTop { top } => Some((0, top)),
        Stage::Find { at, .. } => match at {
            Search::ProtectFirst { cur } => Some((1, cur)),
            Search::ProtectNext { next, .. } => Some((0, next)),
            Search::ShiftPrev { cur, .. } => Some((2, cur)),
            Search::ShiftCur { next, .. } => Some((1, next)),
            _ => None,
        },
        _ => None,
    }
}

impl Seat {
    fn announce(&mut self, slot: u8, cell: u8) {
        if let Some(announced) = self.announced.get_mut(usize::from(slot)) {
            *announced = Some(cell);
        }
    }
}

// Where a session stands; outside, where a word has none.
fn stage_of<R: Reclaimer>(board: &Board<R>, session: Option<u8>) -> Stage {
    session.map_or(Stage::Outside, |session| board.stage_of(session))
}

impl Watch {
    pub fn new(heap: Global, sessions: u8, items: u16) -> Watch {
        Watch {
            sessions,
            items,
            seats: [Seat::default(); 8],
            decided: Vec::new(heap),
        }
    }

    pub fn sessions(&self) -> u8 {
        self.sessions
    }

    pub fn seat(&self, session: u8) -> Seat {
        self.seats
            .get(usize::from(session))
            .copied()
            .unwrap_or_default()
    }

    fn set_seat(&mut self, session: u8, seat: Seat) {
        if let Some(place) = self.seats.get_mut(usize::from(session)) {
            *place = seat;
        }
    }

    // The sessions in an operation have slept through the end of one.
    fn lull(&mut self) {
        for seat in self.seats.iter_mut() {
            seat.asleep = seat.op.is_some();
        }
    }

    fn decide(&mut self, session: u8, m: &Moment) -> Result<(), AllocError> {
        if let Some(decision) = verdict(m.before, m.after, m.answer)
            && let Some(op) = m.op
        {
            self.decided.push(Decided {
                session,
                op,
                decision,
            })?;
        }
        Ok(())
    }

    // A step of a session.
    fn step(&mut self, session: u8, m: &mut Moment) -> Result<(), AllocError> {
        let mut seat = self.seat(session);
        m.op = seat.op;
        m.woke = seat.asleep;
        self.decide(session, m)?;
        if let AnswerKind::Yes | AnswerKind::No = m.answer.kind {
            self.set_seat(session, Seat::default());
            self.lull();
            return Ok(());
        }
        seat.asleep = false;
        if let Some((slot, cell)) = announces(m.before) {
            seat.announce(slot, cell);
        }
        self.set_seat(session, seat);
        Ok(())
    }

    fn note(&mut self, m: &mut Moment) -> Result<(), AllocError> {
        if let Ok(Word::Of { session, kind }) = m.asked
            && m.answer.kind != AnswerKind::Refused
        {
            match kind {
                Kind::Begin(op) => self.set_seat(
                    session,
                    Seat {
                        op: Some(op),
                        ..Seat::default()
                    },
                ),
                Kind::Step => self.step(session, m)?,
            }
        }
        Ok(())
    }

    // Gives one word to a board, which is the caller's.
    pub fn give<R: Reclaimer, T: ItemOrder>(
        &mut self,
        board: &mut Board<R>,
        items: &[T],
        word: u32,
    ) -> Result<Moment, AllocError> {
        let asked = Word::parse(word, self.sessions, self.items);
        let session = match asked {
            Ok(Word::Of { session, .. }) => Some(session),
            _ => None,
        };
        let before = stage_of(board, session);
        let tallies_before = Tallies::from(board.tallies());
        let answer = board.word(items, word);
        let mut moment = Moment {
            word,
            asked,
            answer,
            before,
            after: stage_of(board, session),
            op: None,
            tallies_before,
            tallies: Tallies::from(board.tallies()),
            head: board.head(),
            front: board.front(),
            compared: compared_at(before).map(|cell| board.cell_at(cell)),
            woke: false,
        };
        self.note(&mut moment)?;
        Ok(moment)
    }
}
