// The four header lines by name.
ghost use Rattle.schedule.specs.Names.{header_name};

use crate::keyword::Keyword;

#[derive(Clone, Copy, PartialEq, Eq, Debug)]
pub enum Header {
    Reclaimer,
    Sessions,
    Cells,
    Items,
}

impl Keyword for Header {
    ghost spelled = { header_name };

    #[tactic(auto, using(crate::proofs::Listed::headers))]
    fn all() -> &'static [Header] {
        &[
            Header::Reclaimer,
            Header::Sessions,
            Header::Cells,
            Header::Items,
        ]
    }

    fn name(self) -> &'static str {
        match self {
            Header::Reclaimer => "reclaimer",
            Header::Sessions => "sessions",
            Header::Cells => "cells",
            Header::Items => "items",
        }
    }
}
