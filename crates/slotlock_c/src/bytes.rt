ghost use Rattle.std.specs.Prelude.{◌≡◌};
ghost use Rattle.slotlock_c.specs.Cuts.{uncut_number};

use items::{ByteString, TooLong};
use std::alloc::{AllocFailed, Global};

// Why bytes and lengths make no list of byte strings, with the number that a report has for it.
#[derive(Clone, Copy, PartialEq, Eq, Debug)]
pub enum Uncut {
    Memory = 2,
    TooLong = 4,
    Misfit = 11,
}

impl Uncut {
    // A cast of its own enum.
    pub(crate) fn code(self) -> u16
        ensures { result ≡ uncut_number self }
    {
        self as u16
    }
}

impl From<TooLong> for Uncut {
    fn from(_too_long: TooLong) -> Uncut {
        Uncut::TooLong
    }
}

impl<T: Drop> From<AllocFailed<T>> for Uncut {
    fn from(_failed: AllocFailed<T>) -> Uncut {
        Uncut::Memory
    }
}

// Cuts the bytes into strings of these lengths, one after another, until nothing is left.
pub(crate) fn cut(heap: Global, bytes: &[u8], lengths: &[u8]) -> Result<Vec<ByteString>, Uncut> {
    let mut strings = Vec::new(heap);
    let mut rest = bytes;
    for length in lengths {
        let (piece, after) = rest
            .split_at_checked(*length as usize)
            .ok_or(Uncut::Misfit)?;
        strings.push(ByteString::new(piece)?)?;
        rest = after;
    }
    if rest.is_empty() {
        Ok(strings)
    } else {
        Err(Uncut::Misfit)
    }
}
