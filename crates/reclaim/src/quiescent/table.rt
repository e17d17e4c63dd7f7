// The table of quiescent states.

ghost use Rattle.std.specs.Prelude.{◌≡◌, true, false, length};
ghost use Rattle.std.specs.List.{list_all};
ghost use Rattle.reclaim.specs.Table.{NonePast};
ghost use Rattle.reclaim.specs.QuiescentStates.{is_inside, InsideStill, full};

use crate::held::Held;

// A held cell has a record of the sessions that were inside when it was retired and have not left since.
#[derive(Drop)]
pub struct QuiescentStates {
    pub(super) inside: [bool; 8],
    pub(super) held: Held<[bool; 8]>,
    ghost eight: { length inside ≡ 8 },
    ghost past: { NonePast is_inside false held.sizes.sessions inside },
    ghost still: { InsideStill inside held.list.items },
    ghost full_records: { list_all full held.list.items ≡ true },
}
