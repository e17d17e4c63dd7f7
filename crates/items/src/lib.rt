// Items that planners lock, and the orders that tell them apart.
//
// An order answers smaller, equal or greater, and obeys four laws: equal holds exactly for the same value,
// changing sides changes smaller to greater, and smaller than a smaller one is smaller. `ItemOrder` states them,
// and code that is generic over it rests on nothing else. There are two orders:
//
// - unsigned 32-bit numbers, by size (`u32`);
// - byte strings of 0 to 11 bytes (`ByteString`): the first differing byte decides, and a beginning comes first.
//
//     let low = ByteString::new(b"MSCU7")?;
//     let high = ByteString::new(b"MSCU9")?;
//     low.compare(&high) // Ordering::Less
#![tactic(auto)]

mod byte_string;
mod number;
pub mod order;

pub use byte_string::stored::{ByteString, TooLong};
pub use order::{ItemOrder, at_most};
