// The reclaimers by name.
ghost use Rattle.schedule.specs.Names.{scheme_name};

use crate::keyword::Keyword;
pub use reclaim::Scheme;

impl Keyword for Scheme {
    ghost spelled = { scheme_name };

    #[tactic(auto, using(crate::proofs::Listed::schemes))]
    fn all() -> &'static [Scheme] {
        &[Scheme::Hazard, Scheme::Epoch, Scheme::Quiescent]
    }

    fn name(self) -> &'static str {
        match self {
            Scheme::Hazard => "hazard",
            Scheme::Epoch => "epoch",
            Scheme::Quiescent => "quiescent",
        }
    }
}
