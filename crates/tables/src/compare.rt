// `slotlock compare`: one schedule over all three reclaimers, side by side.
use board::Board;
use console::{Answered, Asked, Given, MOST_STEPS, Player, Stop, Who, refused, sessions_of};
use items::ItemOrder;
use machine::{Answer, AnswerKind, Reason};
use reclaim::{Epochs, HazardPointers, QuiescentStates, Reclaimer};
use schedule::{Items, Keyword, Schedule, Scheme, WordKind, encode};
use std::alloc::Global;
use std::env::Args;
use std::fmt;
use std::io::{BufWriter, Write};

// One board for each reclaimer: three types, so no array.
#[derive(Drop)]
struct Boards {
    hazard: Board<HazardPointers>,
    epoch: Board<Epochs>,
    quiescent: Board<QuiescentStates>,
}

// The answers to one word, in the order of the boards; none where a board's `finish` has ended already.
#[derive(Clone, Copy)]
struct Row {
    answers: [Option<Answer>; 3],
}

// The answer of a board where it is given the word. The three boards are of three types.
fn word_if<R: Reclaimer, T: ItemOrder>(
    given: bool,
    board: &mut Board<R>,
    items: &[T],
    word: u32,
) -> Option<Answer> {
    given.then(|| board.word(items, word))
}

impl Boards {
    fn open(heap: Global, schedule: &Schedule, items: usize) -> Result<Boards, Reason> {
        let sessions = sessions_of(schedule);
        let cells = schedule.cells;
        Ok(Boards {
            hazard: loads::open(heap, HazardPointers::new(heap, sessions, cells), items)?,
            epoch: loads::open(heap, Epochs::new(heap, sessions, cells), items)?,
            quiescent: loads::open(heap, QuiescentStates::new(heap, sessions, cells), items)?,
        })
    }

    // Gives a word to some of the boards.
    fn word<T: ItemOrder>(&mut self, given: [bool; 3], items: &[T], word: u32) -> Row {
        let [hazard, epoch, quiescent] = given;
        Row {
            answers: [
                word_if(hazard, &mut self.hazard, items, word),
                word_if(epoch, &mut self.epoch, items, word),
                word_if(quiescent, &mut self.quiescent, items, word),
            ],
        }
    }
}

impl Row {
    // The boards on which a `finish` goes on.
    fn under_way(self) -> [bool; 3] {
        self.answers.map(|last| last.is_some_and(|answer| answer.kind == AnswerKind::UnderWay))
    }

    fn differs(self) -> bool {
        let [hazard, epoch, quiescent] = self.answers;
        hazard != epoch || hazard != quiescent
    }
}

// A column: the answer, or a dash. The slots of a picture have a type of their own, since they show a bare number.
#[derive(Clone, Copy)]
struct Column(Option<Answer>);

impl fmt::Display for Column {
    fn fmt<W: fmt::Write>(&self, f: &mut fmt::Formatter<W>) -> fmt::Result {
        match self.0 {
            Some(answer) => {
                let answered = Answered {
                    answer,
                    pops: answer.value != 0,
                };
                write!(f, "{answered}")
            }
            None => f.write_str("-"),
        }
    }
}

// The boards, and the table so far: its rows, and the first that differs.
#[derive(Drop)]
struct Comparison<'a, W> {
    heap: Global,
    out: W,
    labels: &'a [String],
    boards: Boards,
    rows: usize,
    first: Option<usize>,
}

impl<W: Write> Comparison<'_, W> {
    // How a row is marked that has just been counted.
    fn mark(&mut self, row: Row) -> &'static str {
        if !row.differs() {
            return "";
        }
        if self.first.is_some() {
            return "  <-";
        }
        self.first = Some(self.rows);
        "  <- first difference"
    }

    // Gives a word to some of the boards, and prints what they answer.
    fn row<T: ItemOrder>(&mut self, given: [bool; 3], items: &[T], word: u32) -> Result<Row, Stop> {
        let row = self.boards.word(given, items, word);
        self.rows = self.rows.saturating_add(1);
        let mark = self.mark(row);
        let number = self.rows;
        let who = Who(word);
        let asked = Asked {
            word,
            labels: self.labels,
        }
        .to_string(self.heap)?;
        // All of a row before it is written, so that want of memory leaves no half of one.
        let [hazard, epoch, quiescent] = row.answers;
        let hazard = Column(hazard).to_string(self.heap)?;
        let epoch = Column(epoch).to_string(self.heap)?;
        let quiescent = Column(quiescent).to_string(self.heap)?;
        writeln!(
            self.out,
            "{number:>4}  {who}   {asked:<16}  {hazard:<10}  {epoch:<10}  {quiescent:<10}{mark}"
        )?;
        Ok(row)
    }

    fn end(&mut self) -> Result<(), Stop> {
        writeln!(self.out)?;
        match self.first {
            Some(number) => writeln!(self.out, "the first difference is at word {number}")?,
            None => writeln!(self.out, "no difference")?,
        }
        let tallies = [
            (Scheme::Hazard, self.boards.hazard.tallies()),
            (Scheme::Epoch, self.boards.epoch.tallies()),
            (Scheme::Quiescent, self.boards.quiescent.tallies()),
        ];
        for (scheme, (held, free)) in tallies {
            let name = scheme.name();
            writeln!(self.out, "{name:<10} held {held} free {free}")?;
        }
        self.out.flush()?;
        Ok(())
    }
}

impl<W: Write> Player for Comparison<'_, W> {
    // By under way on any board.
    fn word<T: ItemOrder>(&mut self, items: &[T], word: u32) -> Result<bool, Stop> {
        let row = self.row([true; 3], items, word)?;
        Ok(row.under_way().contains(&true))
    }

    // Each board by itself until its own answer is otherwise than under way.
    fn finish<T: ItemOrder>(&mut self, items: &[T], session: u8) -> Result<(), Stop> {
        let mut given = [true; 3];
        for _ in 0..MOST_STEPS {
            let row = self.row(given, items, encode(WordKind::Step, session, 0))?;
            given = row.under_way();
            if !given.contains(&true) {
                break;
            }
        }
        Ok(())
    }
}

fn over<T: ItemOrder>(rt: &HostRuntime, schedule: &Schedule, items: &[T]) -> Result<(), Stop> {
    let heap = rt.alloc();
    let boards = Boards::open(heap, schedule, items.len()).map_err(|why| refused(rt, why))?;
    let mut out = BufWriter::new(heap, rt.stdout())?;
    writeln!(
        out,
        "   #  who  word              hazard      epoch       quiescent"
    )?;
    let mut comparison = Comparison {
        heap,
        out,
        labels: schedule.labels.as_slice(),
        boards,
        rows: 0,
        first: None,
    };
    comparison.play(items, schedule)?;
    comparison.end()
}

pub fn command(rt: &HostRuntime, args: Args) -> Result<(), Stop> {
    let schedule = Given::read(rt, args, false)?.schedule;
    match &schedule.items {
        Items::Numbers(numbers) => over(rt, &schedule, numbers.as_slice()),
        Items::Bytes(strings) => over(rt, &schedule, strings.as_slice()),
    }
}
