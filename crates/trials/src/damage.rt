// Damages texts, by numbers that a generator draws.
ghost use Rattle.std.specs.Prelude.{◌≤◌, ◌≡◌, ◌++◌, length};

use loads::Generator;
use std::alloc::{AllocError, Global};

// The bytes that long runs are made of, among those that a text uses.
const RUNS: [u8; 8] = *b"9 \"#\nx\0\xff";

// A text that is to be damaged.
#[derive(Drop)]
struct Damage<'a> {
    heap: Global,
    numbers: &'a mut Generator,
    text: &'a [u8],
}

// Where the last line of a text starts.
fn line_start(text: &[u8]) -> usize
    ensures { result ≤ length text.now }
{
    text.iter()
        .rposition(|b| *b == b'\n')
        .map_or(0, |lf| lf + 1)
}

// Where the first line of a text ends, past its LF.
fn line_end(text: &[u8]) -> usize
    ensures { result ≤ length text.now }
{
    text.iter()
        .position(|b| *b == b'\n')
        .map_or(text.len(), |lf| lf + 1)
}

impl<'a> Damage<'a> {
    // The text up to a place that is drawn, and from there on.
    fn split(&mut self) -> (&'a [u8], &'a [u8]) {
        let at = self.numbers.next() % (self.text.len() as u64 + 1);
        self.text.split_at(at as usize)
    }

    // The text up to a place that is drawn.
    fn cut(&mut self) -> Result<Vec<u8>, AllocError> {
        let (before, _) = self.split();
        Vec::from_slice(self.heap, before)
    }

    // The text with something put in at a place that is drawn.
    fn put_in(&mut self, more: &[u8]) -> Result<Vec<u8>, AllocError> {
        let (before, after) = self.split();
        let mut damaged = Vec::from_slice(self.heap, before)?;
        damaged.extend_from_slice(more)?;
        damaged.extend_from_slice(after)?;
        Ok(damaged)
    }

    // The text with some bytes changed, up to so many.
    fn flip(&mut self, most: u64) -> Result<Vec<u8>, AllocError> {
        let mut damaged = Vec::from_slice(self.heap, self.text)?;
        for _ in 0..most {
            let (before, _) = self.split();
            let byte = self.byte();
            if let Some(b) = damaged.get_mut(before.len()) {
                *b ^= byte;
            }
        }
        Ok(damaged)
    }

    fn byte(&mut self) -> u8 {
        (self.numbers.next() % 256) as u8
    }

    // So many bytes that are drawn.
    fn noise(&mut self, count: u64) -> Result<Vec<u8>, AllocError> {
        let heap = self.heap;
        (0..count).map(|_| self.byte()).collect(heap)
    }

    // A long run of one byte that is drawn.
    fn long_run(&mut self) -> Result<Vec<u8>, AllocError> {
        let byte = RUNS[(self.numbers.next() % 8) as usize];
        let count = self.numbers.next() % 5000;
        Vec::from_elem(self.heap, byte, count as usize)
    }

    // The text with a line that is drawn standing there twice.
    fn double_line(&mut self) -> Result<Vec<u8>, AllocError> {
        let (before, after) = self.split();
        let mut damaged = Vec::from_slice(self.heap, before)?;
        damaged.extend_from_slice(&after[..line_end(after)])?;
        damaged.extend_from_slice(&before[line_start(before)..])?;
        damaged.extend_from_slice(after)?;
        Ok(damaged)
    }
}

// The text damaged in a way that is drawn.
pub fn damaged(heap: Global, numbers: &mut Generator, text: &[u8]) -> Result<Vec<u8>, AllocError> {
    let way = numbers.next() % 10;
    let mut damage = Damage {
        heap,
        numbers,
        text,
    };
    // Each way has arguments of its own, so a table of functions would be no plainer.
    match way {
        0 => damage.cut(),
        1 => damage.flip(1),
        2 => damage.flip(20),
        3 => damage.double_line(),
        4 => damage.put_in(b"99999999999999999999999"),
        5 => damage.put_in(b" 4294967296 "),
        6 => {
            let run = damage.long_run()?;
            damage.put_in(run.as_slice())
        }
        7 => {
            let bytes = damage.noise(40)?;
            damage.put_in(bytes.as_slice())
        }
        8 => damage.noise(300),
        _ => damage.put_in(b"\n"),
    }
}
