ghost use Rattle.std.specs.Prelude.{◌≡◌};
ghost use Rattle.slotlock_c.specs.Reports.{refusal};

// What a call says at its end: 0 or the number of its refusal, the held and the free cells, and how many words were done.
#[derive(Clone, Copy)]
#[repr(C)]
pub struct Report {
    pub error: u16,
    pub held: u16,
    pub free: u16,
    pub words: u64,
}

pub(crate) fn refused(error: u16) -> Report
    ensures { result ≡ refusal error }
{
    Report {
        error,
        held: 0,
        free: 0,
        words: 0,
    }
}
