// When may a cell that was unlinked be used again?
//
// A session that has read a link to a cell may touch the cell long after another session has unlinked it.
// So an unlinked cell is retired to a reclaimer, which holds it until no session can come to it any more.
//
// - `enter` puts a session inside and `leave` puts it outside. The three slots of a session outside are void.
// - `protect` makes a slot name a cell. If a slot of that session kept the cell before, this slot keeps it now.
// - `retire` makes a cell held, and every slot that names it at that moment keeps it.
// - `collect` gives back a held cell that no slot keeps, or answers none: then nothing is held or somebody is inside.
// - What a slot names or keeps it goes on naming or keeping, until it is given to `protect`, its session leaves,
//   or the cell is given back, which is then kept no more but named as before.
//
// `Reclaimer` promises this, and code written against it runs over every scheme: `HazardPointers`, `Epochs` and
// `QuiescentStates`. Each takes all its memory when it is made, and a refused call changes nothing.
//
//     let mut hazard = HazardPointers::new(heap, 2, 16)?; // two sessions, sixteen cells
//     hazard.enter(0)?;
//     hazard.protect(0, 1, 7)?; // session 0 is about to use cell 7
//     if let Some(debt) = Unlinked::of(&hazard, 7) {
//         hazard.retire(debt).unwrap(); // meanwhile cell 7 was unlinked
//     }
//     hazard.collect(); // None: slot 1 of session 0 keeps cell 7
//     hazard.leave(0)?;
//     hazard.collect(); // Some(7)
#![tactic(auto)]

mod epoch;
mod hazard;
mod held;
mod quiescent;
pub mod reclaimer;
mod refusal;
mod scheme;
mod sizes;
mod unlinked;

pub use epoch::table::Epochs;
pub use hazard::table::HazardPointers;
pub use quiescent::table::QuiescentStates;
pub use reclaimer::Reclaimer;
pub use refusal::{Refusal, Unmade};
pub use scheme::{NoScheme, Scheme};
pub use unlinked::{Unlinked, Unpaid};
