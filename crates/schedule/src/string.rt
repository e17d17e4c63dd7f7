// Byte strings as a schedule writes them.
use crate::expected::Expected;
use crate::fault::Fault;
use crate::number::hex_digit;
use std::alloc::Global;

// The bytes between two quotes: printable ASCII without quotes.
fn quoted(heap: Global, inner: &[u8]) -> Result<Vec<u8>, Fault> {
    if !inner
        .iter()
        .all(|b| matches!(*b, b' '..=b'!' | b'#'..=b'~'))
    {
        return Err(Fault::Bad(Expected::ByteString));
    }
    Ok(inner.to_vec(heap)?)
}

// The byte that two hexadecimal digits write, the high digit first.
fn pair(digits: &[u8]) -> Option<u8> {
    let [high, low] = digits else {
        return None;
    };
    Some(hex_digit(*high)? * 16 + hex_digit(*low)?)
}

// The bytes that a token writes, quoted or as pairs of hexadecimal digits.
pub(crate) fn bytes_of(heap: Global, token: &str) -> Result<Vec<u8>, Fault> {
    match token.as_bytes() {
        [b'x', digits @ ..] => digits
            .chunks(2)
            .map(|digits| pair(digits).ok_or(Fault::Bad(Expected::ByteString)))
            .try_collect(heap),
        [b'"', inner @ .., b'"'] => quoted(heap, inner),
        _ => Err(Fault::Bad(Expected::ByteString)),
    }
}
