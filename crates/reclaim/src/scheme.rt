// The three schemes by their kind, for who picks one by a number.

ghost use Rattle.std.specs.Prelude.{◌≡◌};
ghost use Rattle.reclaim.specs.Schemes.{scheme_numbered};

// Which scheme a reclaimer follows.
#[derive(Clone, Copy, PartialEq, Eq, Debug)]
pub enum Scheme {
    Hazard,
    Epoch,
    Quiescent,
}

// A number that stands for no scheme.
#[derive(Clone, Copy, PartialEq, Eq, Debug)]
pub struct NoScheme;

// A table, since no cast makes a case of a number.
impl TryFrom<u8> for Scheme {
    type Error = NoScheme;

    ghost try_from_gives = { λ number result. result ≡ scheme_numbered number };

    fn try_from(number: u8) -> Result<Scheme, NoScheme> {
        match number {
            0 => Ok(Scheme::Hazard),
            1 => Ok(Scheme::Epoch),
            2 => Ok(Scheme::Quiescent),
            _ => Err(NoScheme),
        }
    }
}
