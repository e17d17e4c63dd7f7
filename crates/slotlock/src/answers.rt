// `slotlock answers`: a line for each word with its answer, then the tallies.
use board::{Board, Unopened};
use console::{Given, Player, Stop, refused, with_schedule};
use items::ItemOrder;
use machine::{Answer, AnswerKind, Reason};
use reclaim::{Reclaimer, Unmade};
use schedule::{Act, Job, Schedule, WordKind, encode};
use std::alloc::Global;
use std::env::Args;
use std::io::{BufWriter, Write};

fn print<W: Write>(out: &mut W, answers: &[Answer]) -> Result<(), Stop> {
    for answer in answers {
        let letter = char::from(answer.kind.letter());
        let value = answer.value;
        writeln!(out, "{letter} {value}")?;
    }
    Ok(())
}

fn print_tallies<R: Reclaimer, W: Write>(out: &mut W, board: &Board<R>) -> Result<(), Stop> {
    let (held, free) = board.tallies();
    writeln!(out, "held {held} free {free}")?;
    out.flush()?;
    Ok(())
}

// Adds the words of a line; none for a `finish`.
fn add(words: &mut Vec<u32>, act: Act) -> Result<(), Stop> {
    match act {
        Act::Word(word) => words.push(word)?,
        Act::Steps { session, count } => {
            let step = encode(WordKind::Step, session, 0);
            // One by one: `extend` makes room for the first line alone, which a later line has to double.
            for _ in 0..count {
                words.push(step)?;
            }
        }
        Act::Finish { .. } => {}
    }
    Ok(())
}

// An open board, and words that are put by until they are given to it in one call.
#[derive(Drop)]
struct Stretches<R: Reclaimer, W> {
    heap: Global,
    out: W,
    board: Board<R>,
    words: Vec<u32>,
}

impl<R: Reclaimer, W: Write> Stretches<R, W> {
    // Gives the words that were put by, and forgets them.
    fn run<T: ItemOrder>(&mut self, items: &[T]) -> Result<(), Stop> {
        let mut answers = Vec::from_elem(self.heap, Answer::no(), self.words.len())?;
        let _ = self
            .board
            .run(items, self.words.as_slice(), answers.as_mut_slice());
        print(&mut self.out, answers.as_slice())?;
        self.words.clear();
        Ok(())
    }
}

impl<R: Reclaimer, W: Write> Player for Stretches<R, W> {
    fn word<T: ItemOrder>(&mut self, items: &[T], word: u32) -> Result<bool, Stop> {
        let answer = self.board.word(items, word);
        print(&mut self.out, &[answer])?;
        Ok(answer.kind == AnswerKind::UnderWay)
    }

    // Stretches of plain words, and between them what `finish` asks for.
    fn act<T: ItemOrder>(&mut self, items: &[T], act: Act) -> Result<(), Stop> {
        match act {
            Act::Finish { session } => {
                self.run(items)?;
                self.finish(items, session)
            }
            _ => add(&mut self.words, act),
        }
    }
}

#[derive(Drop)]
struct Answers<'a> {
    rt: &'a HostRuntime,
    schedule: &'a Schedule,
}

impl Answers<'_> {
    fn finishes(&self) -> bool {
        self.schedule
            .lines
            .iter()
            .any(|line| matches!(line.act, Act::Finish { .. }))
    }

    // All words in one call.
    fn at_once<R: Reclaimer + Drop, T: ItemOrder>(
        &self,
        reclaimer: R,
        items: &[T],
    ) -> Result<(), Stop> {
        let heap = self.rt.alloc();
        let mut words = Vec::new(heap);
        for line in self.schedule.lines.iter() {
            add(&mut words, line.act)?;
        }
        let mut answers = Vec::from_elem(heap, Answer::no(), words.len())?;
        let board = board::play(
            heap,
            reclaimer,
            items,
            words.as_slice(),
            answers.as_mut_slice(),
        )
        .map_err(|Unopened {
            why,
            reclaimer: _reclaimer,
        }| refused(self.rt, why))?;
        let mut out = BufWriter::new(heap, self.rt.stdout())?;
        print(&mut out, answers.as_slice())?;
        print_tallies(&mut out, &board)
    }

    // Stretch by stretch on an open board.
    fn in_stretches<R: Reclaimer + Drop, T: ItemOrder>(
        &self,
        board: Board<R>,
        items: &[T],
    ) -> Result<(), Stop> {
        let heap = self.rt.alloc();
        let mut stretches = Stretches {
            heap,
            out: BufWriter::new(heap, self.rt.stdout())?,
            board,
            words: Vec::new(heap),
        };
        stretches.play(items, self.schedule)?;
        stretches.run(items)?;
        print_tallies(&mut stretches.out, &stretches.board)
    }
}

impl Job for Answers<'_> {
    type Output = Result<(), Stop>;

    fn go<R: Reclaimer + Drop, T: ItemOrder>(
        self,
        made: Result<R, Unmade>,
        items: &[T],
    ) -> Result<(), Stop> {
        let refuse = |why: Reason| refused(self.rt, why);
        if self.finishes() {
            let board = loads::open(self.rt.alloc(), made, items.len()).map_err(refuse)?;
            self.in_stretches(board, items)
        } else {
            let reclaimer = made.map_err(|why| refuse(Reason::from(why)))?;
            self.at_once(reclaimer, items)
        }
    }
}

pub fn command(rt: &HostRuntime, args: Args) -> Result<(), Stop> {
    let schedule = Given::read(rt, args, false)?.schedule;
    let answers = Answers {
        rt,
        schedule: &schedule,
    };
    with_schedule(rt.alloc(), &schedule, answers)
}
