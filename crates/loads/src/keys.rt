// The items of a load: each place has a number, and some places have the same one.
ghost use Rattle.std.specs.Prelude.{◌≡◌, ℕ, ◌+◌, ◌*◌, ◌/◌, ◌%◌, ◌<◌, IfOk, vec_len};
ghost use Rattle.loads.specs.Keys.{number_at, byte_at, Made, Numbered};

use items::ByteString;
use std::alloc::{AllocError, Global};

// The number of a place among so many keys.
fn number_of(place: u16, keys: u16) -> u32
    requires { 0 < keys }
    ensures { result ≡ number_at keys place }
{
    u32::from(place) * 7919 % u32::from(keys - keys / 4)
}

// The items of a load: what is made of the number of each place.
fn items<T: Drop, F: Fn(u32) -> T>(heap: Global, keys: u16, item: F) -> Result<Vec<T>, AllocError>
    requires { F.IsAlwaysCallable item }
    ensures { IfOk result (λ v. Made (F.post item) keys v.items) }
{
    let mut items = Vec::new(heap);
    // No `map` with `collect`: only inside the loop is it known that there are keys to divide by.
    for place in 0..keys {
        items.push(item(number_of(place, keys)))?;
    }
    Ok(items)
}

// The items of a load over numbers.
pub(crate) fn numbers(heap: Global, keys: u16) -> Result<Vec<u32>, AllocError>
    ensures { IfOk result (λ v. Numbered keys v.items) }
{
    items(heap, keys, |number| number)
}

// The byte at a position of the byte string of a number.
fn byte_of(number: u32, position: u8) -> u8
    ensures { result ≡ byte_at number position }
{
    let n = u64::from(number);
    ((n * 37 + u64::from(position) * 85 + n / 12) % 256) as u8
}

// The byte string of a number.
fn string_of(number: u32) -> ByteString {
    let len = (number % 12) as usize;
    let mut bytes = [0; 11];
    for (byte, position) in bytes[..len].iter_mut().zip(0..) {
        *byte = byte_of(number, position);
    }
    ByteString::new(&bytes[..len]).unwrap()
}

// The items of a load over byte strings.
pub(crate) fn strings(heap: Global, keys: u16) -> Result<Vec<ByteString>, AllocError>
    ensures { IfOk result (λ v. vec_len v ≡ keys) }
{
    items(heap, keys, string_of)
}
