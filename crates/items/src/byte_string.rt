// Byte strings, in the order of their first differing byte.

pub mod stored;

ghost use Rattle.std.specs.Prelude.{◌≡◌, ℕ, ◌<◌, ◌≤◌, List, length, Ok, Err};
ghost use Rattle.items.specs.Bytes.{bytes_of, too_long_number};
ghost use Rattle.items.specs.Orders.{order_bytes};
ghost use Rattle.items.specs.OrderLaws.{bytes_same, bytes_itself, bytes_sides, bytes_smaller};

use crate::order::ItemOrder;
use std::cmp::Ordering;
use stored::{ByteString, TooLong};

impl TooLong {
    // The number that stands for this refusal in answers.
    pub fn code(self) -> u16
        ensures { result ≡ too_long_number self }
    {
        4
    }
}

impl ByteString {
    // The byte string of these bytes, refused where there are more than 11.
    pub fn new(text: &[u8]) -> Result<ByteString, TooLong>
        ensures { elim result [ Ok s ↦ bytes_of s ≡ text.now | Err e ↦ 11 < length text.now ] }
    {
        if text.len() > 11 {
            return Err(TooLong);
        }
        let mut bytes = [0; 11];
        bytes[..text.len()].copy_from_slice(text);
        Ok(ByteString {
            bytes,
            len: text.len(),
        })
    }

    pub fn as_bytes(&self) -> &[u8]
        ensures { result.now ≡ bytes_of self.now }
    {
        &self.bytes[..self.len]
    }
}

// A loop, as the slices' own `cmp` takes a third longer at so few bytes.
fn compare_bytes(a: &[u8], b: &[u8]) -> Ordering
    ensures { result ≡ order_bytes a.now b.now }
{
    for (x, y) in a.iter().zip(b) {
        let order = x.cmp(y);
        if order.is_ne() {
            return order;
        }
    }
    a.len().cmp(&b.len())
}

impl ItemOrder for ByteString {
    ghost Value = { List ℕ };

    ghost value = { bytes_of };

    ghost order = { order_bytes };

    ghost same = { bytes_same };

    ghost itself = { bytes_itself };

    ghost sides = { bytes_sides };

    ghost smaller = { bytes_smaller };

    fn compare(&self, other: &ByteString) -> Ordering {
        compare_bytes(self.as_bytes(), other.as_bytes())
    }
}
