// The board as text.
ghost use Rattle.std.specs.Iterator.{IsFinite};

use crate::watch::Watch;
use account::{item, letter};
use board::Board;
use reclaim::Reclaimer;
use std::fmt;
use std::iter::successors;

#[derive(Drop)]
pub struct Picture<'a, R: Reclaimer> {
    pub board: &'a Board<R>,
    pub watch: &'a Watch,
    pub labels: &'a [String],
}

// Cells by number, or that there are none.
fn numbers<I: Iterator<Item = u8>, W: fmt::Write>(
    cells: I,
    f: &mut fmt::Formatter<W>,
) -> fmt::Result
    requires can { I.can_next cells }
    requires ends { IsFinite (I.remaining cells) }
{
    let mut any = false;
    for cell in cells {
        write!(f, " {cell}")?;
        any = true;
    }
    if any { Ok(()) } else { f.write_str(" none") }
}

// What is announced in a slot, or a dash.
#[derive(Clone, Copy)]
struct Slot(Option<u8>);

impl fmt::Display for Slot {
    fn fmt<W: fmt::Write>(&self, f: &mut fmt::Formatter<W>) -> fmt::Result {
        match self.0 {
            Some(cell) => write!(f, "{cell}"),
            None => f.write_str("-"),
        }
    }
}

impl<R: Reclaimer> Picture<'_, R> {
    // A chain of cells from its first one on, with their items and marks.
    fn chain<W: fmt::Write>(&self, first: Option<u8>, f: &mut fmt::Formatter<W>) -> fmt::Result {
        if first.is_none() {
            return f.write_str(" none");
        }
        for number in successors(first, |number| self.board.cell_at(*number).link.to).take(256) {
            let cell = self.board.cell_at(number);
            let name = item(self.labels, cell.place);
            let mark = if cell.link.marked { "*" } else { "" };
            write!(f, " {name}@{number}{mark}")?;
        }
        Ok(())
    }

    fn held<W: fmt::Write>(&self, f: &mut fmt::Formatter<W>) -> fmt::Result {
        numbers((0..=u8::MAX).filter(|cell| self.board.is_held(*cell)), f)
    }

    // The free cells, the top first.
    fn free<W: fmt::Write>(&self, f: &mut fmt::Formatter<W>) -> fmt::Result {
        numbers(self.board.free_cells().iter().rev().copied(), f)
    }

    // What each session announced in its slots 0, 1 and 2.
    fn slots<W: fmt::Write>(&self, f: &mut fmt::Formatter<W>) -> fmt::Result {
        for session in 0..self.watch.sessions() {
            let who = letter(session);
            let seat = self.watch.seat(session);
            if seat.op.is_none() {
                write!(f, " {who}-")?;
            } else {
                let [zero, one, two] = seat.announced;
                write!(f, " {who}({},{},{})", Slot(zero), Slot(one), Slot(two))?;
            }
        }
        Ok(())
    }
}

impl<R: Reclaimer> fmt::Display for Picture<'_, R> {
    fn fmt<W: fmt::Write>(&self, f: &mut fmt::Formatter<W>) -> fmt::Result {
        f.write_str("locks")?;
        self.chain(self.board.front(), f)?;
        f.write_str(" · stack")?;
        self.chain(self.board.head(), f)?;
        f.write_str(" · held")?;
        self.held(f)?;
        f.write_str(" · free")?;
        self.free(f)?;
        f.write_str(" · slots")?;
        self.slots(f)
    }
}
