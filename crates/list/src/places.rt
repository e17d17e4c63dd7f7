ghost use Rattle.std.specs.Prelude.{◌≡◌, ◌<◌, length};
ghost use Rattle.machine.specs.Serial.{compared};

use items::ItemOrder;
use std::cmp::Ordering;

// How the items at two places compare; a place past the items comes first.
pub(crate) fn compare_places<T: ItemOrder>(items: &[T], a: u16, b: u16) -> Ordering
    ensures { result ≡ compared T.order T.value items.now a b }
{
    match (items.get(a as usize), items.get(b as usize)) {
        (Some(x), Some(y)) => x.compare(y),
        (Some(_), None) => Ordering::Greater,
        (None, Some(_)) => Ordering::Less,
        (None, None) => Ordering::Equal,
    }
}
