// The table of hazard pointers.

ghost use Rattle.std.specs.Prelude.{◌≡◌, length};
ghost use Rattle.reclaim.specs.Table.{NonePast};
ghost use Rattle.reclaim.specs.HazardPointers.{is_inside, no_row, Vacant, ThreeSlots};

use crate::held::Held;

// Whether a session is inside, and its three slots, each with at most one cell. A row of empty slots is there for a
// session outside too, so that a search of the slots asks nothing else.
#[derive(Clone, Copy)]
pub struct Row {
    pub inside: bool,
    pub slots: [Option<u8>; 3],
}

// Every slot of a session inside stores at most one cell, and a held cell waits while a slot stores it.
#[derive(Drop)]
pub struct HazardPointers {
    pub(super) rows: [Row; 8],
    pub(super) held: Held<()>,
    ghost eight: { length rows ≡ 8 },
    ghost past: { NonePast is_inside no_row held.sizes.sessions rows },
    ghost vacant: { Vacant rows },
    ghost slots: { ThreeSlots rows },
}
