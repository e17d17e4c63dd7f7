// A byte string as it is stored.

ghost use Rattle.std.specs.Prelude.{◌≡◌, ◌≤◌, length};

// A byte string to be made had more than 11 bytes.
#[derive(Clone, Copy, PartialEq, Eq, Debug)]
pub struct TooLong;

// At most 11 bytes: the first `len` of the array. By value, with no heap, so that it is `Copy`.
#[derive(Clone, Copy)]
pub struct ByteString {
    pub(super) bytes: [u8; 11],
    pub(super) len: usize,
    ghost eleven: { length bytes ≡ 11 },
    ghost short: { len ≤ 11 },
}
