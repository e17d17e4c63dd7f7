// What a load is, by name and number.
ghost use Rattle.std.specs.Prelude.{◌≡◌, MatchOption, ◌≢◌};
ghost use Rattle.loads.specs.declared.load.Mode.{Mode as Modes};
ghost use Rattle.loads.specs.declared.load.ItemSort.{ItemSort as Sorts};
ghost use Rattle.loads.specs.Names.{mode_name, sort_name};

use schedule::{Keyword, Scheme};

// The seed of a load that names none.
pub const DEFAULT_SEED: u64 = 88172645463325252;

// How a load gives its words: whole operations one after another, sessions mixed at random, or mixed with words that make no sense.
#[derive(Clone, Copy, PartialEq, Eq, Debug)]
pub enum Mode {
    Whole,
    Mixed,
    Junk,
}

impl Mode {
    // The mode of this name, if it is one of the three, for callers without the trait.
    pub fn named(name: &str) -> Option<Mode>
        ensures { MatchOption result ((m : Modes) → name.now ≢ mode_name m) (λ m. name.now ≡ mode_name m) }
    {
        <Mode as Keyword>::named(name)
    }
}

impl Keyword for Mode {
    ghost spelled = { mode_name };

    #[tactic(auto, using(crate::proofs::Listed::modes))]
    fn all() -> &'static [Mode] {
        &[Mode::Whole, Mode::Mixed, Mode::Junk]
    }

    fn name(self) -> &'static str {
        match self {
            Mode::Whole => "whole",
            Mode::Mixed => "mixed",
            Mode::Junk => "junk",
        }
    }
}

#[derive(Clone, Copy, PartialEq, Eq, Debug)]
pub enum ItemSort {
    Numbers,
    Bytes,
}

impl ItemSort {
    // The sort of this name, if it is one of the two, for callers without the trait.
    pub fn named(name: &str) -> Option<ItemSort>
        ensures { MatchOption result ((s : Sorts) → name.now ≢ sort_name s) (λ s. name.now ≡ sort_name s) }
    {
        <ItemSort as Keyword>::named(name)
    }
}

impl Keyword for ItemSort {
    ghost spelled = { sort_name };

    #[tactic(auto, using(crate::proofs::Listed::sorts))]
    fn all() -> &'static [ItemSort] {
        &[ItemSort::Numbers, ItemSort::Bytes]
    }

    fn name(self) -> &'static str {
        match self {
            ItemSort::Numbers => "numbers",
            ItemSort::Bytes => "bytes",
        }
    }
}

#[derive(Clone, Copy, PartialEq, Eq, Debug)]
pub struct Load {
    pub scheme: Scheme,
    pub sessions: u8,
    pub cells: u16,
    pub sort: ItemSort,
    pub keys: u16,
    pub mode: Mode,
    pub seed: u64,
    pub turns: u64,
}
