ghost use Rattle.std.specs.Prelude.{◌≡◌};
ghost use Rattle.machine.specs.Machine.{sought};

use crate::cell::Prev;

// What a search is for: to look, to add the fresh cell, to take out, or only to finish a decided delete.
#[derive(Clone, Copy, PartialEq, Eq, Debug)]
pub enum Goal {
    Look { sought: u16 },
    Add { sought: u16, fresh: u8 },
    Take { sought: u16 },
    Finish { sought: u16 },
}

impl Goal {
    // The place of the item that is searched for.
    pub fn sought(self) -> u16
        ensures { result ≡ sought self }
    {
        match self {
            Goal::Look { sought }
            | Goal::Add { sought, .. }
            | Goal::Take { sought }
            | Goal::Finish { sought } => sought,
        }
    }
}

// Where a search stands, with the cells that its next steps use.
#[derive(Clone, Copy, PartialEq, Eq, Debug)]
pub enum Search {
    ReadFront,
    ProtectFirst {
        cur: u8,
    },
    CheckFront {
        cur: u8,
    },
    ReadCell {
        prev: Prev,
        cur: u8,
    },
    ProtectNext {
        prev: Prev,
        cur: u8,
        marked: bool,
        next: u8,
        place: u16,
    },
    CheckPrev {
        prev: Prev,
        cur: u8,
        marked: bool,
        next: Option<u8>,
        place: u16,
    },
    ConfirmCell {
        prev: Prev,
        cur: u8,
        next: Option<u8>,
        place: u16,
    },
    ShiftPrev {
        cur: u8,
        next: u8,
    },
    ShiftCur {
        prev: Prev,
        next: u8,
    },
    Unlink {
        prev: Prev,
        cur: u8,
        next: Option<u8>,
    },
}

// Where a session stands in its operation, with the cells that its next steps use.
#[derive(Clone, Copy, PartialEq, Eq, Debug)]
pub enum Stage {
    Outside,
    PushReadHead {
        fresh: u8,
    },
    PushSwapHead {
        fresh: u8,
        head: Option<u8>,
    },
    PopReadHead,
    PopProtectTop {
        top: u8,
    },
    PopCheckHead {
        top: u8,
    },
    PopReadTop {
        top: u8,
    },
    PopSwapHead {
        top: u8,
        next: Option<u8>,
        place: u16,
    },
    Find {
        goal: Goal,
        at: Search,
    },
    LinkFresh {
        sought: u16,
        fresh: u8,
        prev: Prev,
        cur: Option<u8>,
    },
    MarkCell {
        sought: u16,
        prev: Prev,
        cur: u8,
        next: Option<u8>,
    },
    RemoveCell {
        sought: u16,
        prev: Prev,
        cur: u8,
        next: Option<u8>,
    },
}
