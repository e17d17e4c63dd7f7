ghost use Rattle.machine.specs.Laws.{KeptOverRuns};

use items::ItemOrder;
use reclaim::Reclaimer;

// The promise over every run of words from an opening, for every lawful reclaimer and every order of items.
pub fn stands<R: Reclaimer, T: ItemOrder>(reclaimer: &R, item: &T) -> bool
    ensures { KeptOverRuns R.model T.order T.value }
{
    true
}
