// `slotlock run`: a table of every word, its answer and what it did.
use account::{Moment, Told};
use board::Board;
use console::{Answered, Asked, Given, Player, Stop, Who, refused, sessions_of, with_schedule};
use items::ItemOrder;
use machine::{AnswerKind, Op};
use reclaim::{Reclaimer, Unmade};
use schedule::{Job, Schedule};
use std::alloc::Global;
use std::env::Args;
use std::io::{BufWriter, Write};
use watch::{Picture, Serial, Watch};

// How many decided operations stand on a line.
const TO_A_LINE: usize = 6;

#[derive(Drop)]
struct Table<'a> {
    rt: &'a HostRuntime,
    schedule: &'a Schedule,
    show: bool,
}

// A board that words are given to, what was seen of them, and where that is written.
#[derive(Drop)]
struct Scene<'a, R: Reclaimer, W> {
    heap: Global,
    out: W,
    labels: &'a [String],
    // whether the board is shown after each word
    show: bool,
    board: Board<R>,
    watch: Watch,
    // words given so far
    count: usize,
}

// Not a method: in a loop the check takes two references of one lifetime as parameters only.
fn serial_order<'x, W: Write>(
    out: &mut W,
    watch: &'x Watch,
    labels: &'x [String],
) -> Result<(), Stop> {
    if watch.decided.is_empty() {
        writeln!(out, "serial order   nothing was decided")?;
    }
    for (i, decided) in watch.decided.as_slice().chunks(TO_A_LINE).enumerate() {
        let title = if i == 0 { "serial order" } else { "" };
        let serial = Serial { decided, labels };
        writeln!(out, "{title:<12}   {serial}")?;
    }
    Ok(())
}

impl<R: Reclaimer, W: Write> Scene<'_, R, W> {
    fn row(&mut self, moment: &Moment) -> Result<(), Stop> {
        let number = self.count;
        let who = Who(moment.word);
        let asked = Asked {
            word: moment.word,
            labels: self.labels,
        }
        .to_string(self.heap)?;
        let answer = Answered {
            answer: moment.answer,
            pops: moment.op == Some(Op::Pop),
        }
        .to_string(self.heap)?;
        let told = Told {
            moment,
            labels: self.labels,
        };
        writeln!(
            self.out,
            "{number:>4}  {who}   {asked:<16}  {answer:<10}  {told}"
        )?;
        Ok(())
    }

    fn picture(&mut self, title: &str) -> Result<(), Stop> {
        let picture = Picture {
            board: &self.board,
            watch: &self.watch,
            labels: self.labels,
        };
        writeln!(self.out, "{title}{picture}")?;
        Ok(())
    }

    fn end(&mut self) -> Result<(), Stop> {
        writeln!(self.out)?;
        serial_order(&mut self.out, &self.watch, self.labels)?;
        self.picture("board          ")?;
        let (held, free) = self.board.tallies();
        writeln!(self.out, "tallies        held {held} free {free}")?;
        self.out.flush()?;
        Ok(())
    }
}

impl<R: Reclaimer, W: Write> Player for Scene<'_, R, W> {
    fn word<T: ItemOrder>(&mut self, items: &[T], word: u32) -> Result<bool, Stop> {
        let moment = self.watch.give(&mut self.board, items, word)?;
        self.count = self.count.saturating_add(1);
        self.row(&moment)?;
        if self.show {
            self.picture("      ")?;
        }
        Ok(moment.answer.kind == AnswerKind::UnderWay)
    }
}

impl Job for Table<'_> {
    type Output = Result<(), Stop>;

    fn go<R: Reclaimer + Drop, T: ItemOrder>(
        self,
        made: Result<R, Unmade>,
        items: &[T],
    ) -> Result<(), Stop> {
        let Table { rt, schedule, show } = self;
        let heap = rt.alloc();
        let board = loads::open(heap, made, items.len()).map_err(|why| refused(rt, why))?;
        let places = u16::try_from(items.len()).unwrap_or(u16::MAX);
        let mut out = BufWriter::new(heap, rt.stdout())?;
        writeln!(
            out,
            "   #  who  word              answer      what happened"
        )?;
        let mut scene = Scene {
            heap,
            out,
            labels: schedule.labels.as_slice(),
            show,
            board,
            watch: Watch::new(heap, sessions_of(schedule), places),
            count: 0,
        };
        scene.play(items, schedule)?;
        scene.end()
    }
}

pub fn command(rt: &HostRuntime, args: Args) -> Result<(), Stop> {
    let given = Given::read(rt, args, true)?;
    let table = Table {
        rt,
        schedule: &given.schedule,
        show: given.show,
    };
    with_schedule(rt.alloc(), &given.schedule, table)
}
