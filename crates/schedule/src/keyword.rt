// What a text writes by a name.
ghost use Rattle.std.specs.Prelude.{◌≡◌, ◌≢◌, ℕ, List, MatchOption};
ghost use Rattle.schedule.specs.Keywords.{HasAll};

use std::fmt;

// A type whose few values each have a name.
pub trait Keyword: Copy + 'static {
    ghost spelled: { Self → List ℕ };

    // Every value, in order.
    fn all() -> &'static [Self]
        ensures { HasAll result.now };

    fn name(self) -> &'static str
        ensures { result.now ≡ spelled self };

    // The value of this name, if there is one.
    final fn named(text: &str) -> Option<Self>
        ensures { MatchOption result ((k : Self) → text.now ≢ spelled k) (λ k. text.now ≡ spelled k) }
    {
        find_named(text)
    }
}

fn find_named<K: Keyword>(text: &str) -> Option<K>
    ensures { MatchOption result ((k : K) → text.now ≢ K.spelled k) (λ k. text.now ≡ K.spelled k) }
{
    K::all().iter().copied().find(|k| k.name() == text)
}

// The names of some values, as a text offers them.
#[derive(Drop)]
pub struct Names<K: Keyword> {
    pub all: &'static [K],
}

impl<K: Keyword> fmt::Display for Names<K> {
    fn fmt<W: fmt::Write>(&self, f: &mut fmt::Formatter<W>) -> fmt::Result {
        let Some((last, others)) = self.all.split_last() else {
            return Ok(());
        };
        let mut join = "";
        for keyword in others {
            write!(f, "{join}{}", keyword.name())?;
            join = ", ";
        }
        write!(f, " or {}", last.name())
    }
}
