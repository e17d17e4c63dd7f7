// The begin words of a load.
ghost use Rattle.std.specs.Prelude.{◌≡◌, ◌<◌};
ghost use Rattle.loads.specs.Begins.{kind_drawn, place_drawn, begin_word};

use schedule::{WordKind, encode};

// Of sixteen numbers four draw an insert, a delete or a look each, and two a push or a pop each.
fn drawn_kind(r: u64) -> WordKind
    ensures { result ≡ kind_drawn r }
{
    match r % 16 {
        0..=3 => WordKind::Insert,
        4..=7 => WordKind::Delete,
        8..=11 => WordKind::Contains,
        12..=13 => WordKind::Push,
        _ => WordKind::Pop,
    }
}

fn drawn_place(r: u64, keys: u16) -> u16
    requires { 0 < keys }
    ensures { result ≡ place_drawn r keys }
{
    (r / 256 % 65536) as u16 % keys
}

// The word by which a session begins the operation that a number draws, over so many keys.
pub(crate) fn begin(r: u64, session: u8, keys: u16) -> u32
    requires { 0 < keys }
    ensures { result ≡ begin_word r session keys }
{
    let kind = drawn_kind(r);
    let place = match kind {
        WordKind::Pop => 0,
        _ => drawn_place(r, keys),
    };
    encode(kind, session, place)
}
