ghost use Rattle.std.specs.Prelude.{◌≡◌, reverse, length};
ghost use Rattle.machine.specs.declared.cell.Prev.TheVariants.{At};
ghost use Rattle.machine.specs.Machine.{same, points, headed, written, relinked, marked, taken};
ghost use Rattle.memory.specs.Of.{memory_of, with_link, with_mark, with_cell};

use crate::memory::Memory;
use machine::{Cell, Link, Prev};
use reclaim::Reclaimer;

// The equality of cells or none, in the word that the machine has for it.
pub fn same_cell(a: Option<u8>, b: Option<u8>) -> bool
    ensures { result ≡ same a b }
{
    a == b
}

impl<R: Reclaimer> Memory<R> {
    pub fn head(&self) -> Option<u8>
        ensures { result ≡ (memory_of R.state self.now).head }
    {
        self.head
    }

    pub fn set_head(&mut self, to: Option<u8>)
        ensures { memory_of R.state self.new ≡ headed R.model (memory_of R.state self.old) to }
    {
        self.head = to;
    }

    pub fn front(&self) -> Option<u8>
        ensures { result ≡ (memory_of R.state self.now).front }
    {
        self.front
    }

    #[tactic(auto, unfolding(crate::specs::Of::links, crate::specs::Of::marks, crate::specs::Of::places))]
    pub fn cell(&self, c: u8) -> Cell
        ensures to { result.link.to ≡ (memory_of R.state self.now).link c }
        ensures marked { result.link.marked ≡ (memory_of R.state self.now).mark c }
        ensures place { result.place ≡ (memory_of R.state self.now).item c }
    {
        self.cells[c as usize]
    }

    #[tactic(auto, using(crate::proofs::Maps::links_set, crate::proofs::Maps::marks_set, crate::proofs::Maps::places_same))]
    fn set_link(&mut self, c: u8, link: Link)
        ensures { memory_of R.state self.new ≡ with_link (memory_of R.state self.old) c link }
    {
        self.cells[c as usize].link = link;
    }

    // The cell's link becomes the unmarked one to a cell or to none.
    pub fn write_link(&mut self, c: u8, to: Option<u8>)
        ensures { memory_of R.state self.new ≡ written R.model (memory_of R.state self.old) c to }
    {
        self.set_link(c, Link { marked: false, to });
    }

    // Where the cell's link goes; its mark stays.
    #[tactic(auto, using(crate::proofs::Maps::links_set, crate::proofs::Maps::marks_same, crate::proofs::Maps::places_same))]
    fn set_next(&mut self, c: u8, to: Option<u8>)
        ensures { memory_of R.state self.new ≡ relinked R.model (memory_of R.state self.old) (At c) to }
    {
        self.cells[c as usize].link.to = to;
    }

    // The cell's mark; where its link goes stays.
    #[tactic(auto, using(crate::proofs::Maps::links_same, crate::proofs::Maps::marks_set, crate::proofs::Maps::places_same))]
    fn set_mark(&mut self, c: u8, marked: bool)
        ensures { memory_of R.state self.new ≡ with_mark (memory_of R.state self.old) c marked }
    {
        self.cells[c as usize].link.marked = marked;
    }

    pub fn mark(&mut self, c: u8)
        ensures { memory_of R.state self.new ≡ marked R.model (memory_of R.state self.old) c }
    {
        self.set_mark(c, true);
    }

    #[tactic(auto, using(crate::proofs::Maps::links_set, crate::proofs::Maps::marks_set, crate::proofs::Maps::places_set))]
    fn set_cell(&mut self, c: u8, cell: Cell)
        ensures { memory_of R.state self.new ≡ with_cell (memory_of R.state self.old) c cell }
    {
        self.cells[c as usize] = cell;
    }

    // A fresh cell gets the item's place and an empty unmarked link.
    pub fn fill(&mut self, c: u8, place: u16)
        ensures { memory_of R.state self.new ≡ taken R.model (memory_of R.state self.old) c (memory_of R.state self.old).free place }
    {
        let link = Link::default();
        self.set_cell(c, Cell { place, link });
    }

    // Whether the link of prev is unmarked and to this cell or none.
    pub fn leads_to(&self, prev: Prev, cur: Option<u8>) -> bool
        ensures { result ≡ points (memory_of R.state self.now) prev cur }
    {
        match prev {
            Prev::Front => same_cell(self.front, cur),
            Prev::At(p) => {
                let Cell { link, .. } = self.cell(p);
                !link.marked && same_cell(link.to, cur)
            }
        }
    }

    pub fn relink(&mut self, prev: Prev, to: Option<u8>)
        ensures { memory_of R.state self.new ≡ relinked R.model (memory_of R.state self.old) prev to }
    {
        match prev {
            Prev::Front => self.front = to,
            Prev::At(p) => self.set_next(p, to),
        }
    }

    // The free cells, the top last.
    pub fn free_cells(&self) -> &[u8]
        ensures { reverse result.now ≡ (memory_of R.state self.now).free }
    {
        self.free.cells()
    }
}
