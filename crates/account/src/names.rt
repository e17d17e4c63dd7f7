// Names in sentences: sessions, cells, items.
ghost use Rattle.std.specs.Prelude.{◌≡◌, ◌+◌, ◌<◌, ◌≤◌};

use std::fmt;

// The session's letter, A for the first; a question mark past the eighth.
pub fn letter(session: u8) -> char
    ensures known { session < 8 → result ≡ 65 + session }
    ensures other { 8 ≤ session → result ≡ 63 }
{
    match session {
        0..=7 => char::from(b'A' + session),
        _ => '?',
    }
}

// The item at a place, as the schedule writes it.
pub fn item(labels: &[String], place: u16) -> &str {
    labels
        .get(usize::from(place))
        .map_or("?", |label| label.as_str())
}

// Where a link goes.
#[derive(Clone, Copy)]
pub(crate) struct Target(pub(crate) Option<u8>);

impl fmt::Display for Target {
    fn fmt<W: fmt::Write>(&self, f: &mut fmt::Formatter<W>) -> fmt::Result {
        match self.0 {
            Some(cell) => write!(f, "cell {cell}"),
            None => f.write_str("none"),
        }
    }
}
