// Why a line could not be taken. Not an option of what was expected, since memory can be wanting too.
use crate::expected::{Expected, Unread};
use std::alloc::{AllocError, AllocFailed};

#[derive(Clone, Copy, PartialEq, Eq, Debug)]
pub(crate) enum Fault {
    Bad(Expected),
    Memory,
}

impl Fault {
    // The fault as that of a line of the text.
    pub(crate) fn at(self, line: usize) -> Unread {
        match self {
            Fault::Bad(expected) => Unread::Bad { line, expected },
            Fault::Memory => Unread::Memory,
        }
    }
}

impl From<Expected> for Fault {
    fn from(e: Expected) -> Fault {
        Fault::Bad(e)
    }
}

impl From<AllocError> for Fault {
    fn from(_e: AllocError) -> Fault {
        Fault::Memory
    }
}

impl<T: Drop> From<AllocFailed<T>> for Fault {
    fn from(_e: AllocFailed<T>) -> Fault {
        Fault::Memory
    }
}
