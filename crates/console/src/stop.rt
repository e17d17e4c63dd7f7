// Why a command ends before it is done.
ghost use Rattle.std.specs.Prelude.{◌≡◌, Ok, Err};
ghost use Rattle.console.specs.declared.stop.Stop.TheVariants.{Told, Io};

use machine::Reason;
use std::alloc::{AllocError, AllocFailed};
use std::{fmt, io};

#[derive(Drop)]
pub enum Stop {
    // the message is out already
    Told,
    Io(io::Error),
    Memory,
}

impl From<io::Error> for Stop {
    fn from(e: io::Error) -> Stop {
        Stop::Io(e)
    }
}

impl From<AllocError> for Stop {
    fn from(_e: AllocError) -> Stop {
        Stop::Memory
    }
}

impl<T: Drop> From<AllocFailed<T>> for Stop {
    fn from(_e: AllocFailed<T>) -> Stop {
        Stop::Memory
    }
}

impl Stop {
    // Stops after a message, which is out where it could be written.
    pub fn told(written: io::Result<()>) -> Stop
        ensures out { written ≡ Ok tt → result ≡ Told }
        ensures failed { (e : _) → written ≡ Err e → result ≡ Io e }
    {
        match written {
            Ok(()) => Stop::Told,
            Err(e) => Stop::Io(e),
        }
    }
}

// Says on standard error what is wrong, and stops.
pub fn tell<D: fmt::Display + Drop>(rt: &HostRuntime, message: D) -> Stop {
    Stop::told(eprintln!(rt; "slotlock: {message}"))
}

// Prints why no board was opened, and stops.
pub fn refused(rt: &HostRuntime, why: Reason) -> Stop {
    let number = why.code();
    Stop::told(println!(rt; "refused {number}"))
}

// A word on the command line that means nothing there.
#[derive(Drop)]
struct UnknownWord<'a> {
    what: &'a str,
    text: &'a str,
}

impl fmt::Display for UnknownWord<'_> {
    fn fmt<W: fmt::Write>(&self, f: &mut fmt::Formatter<W>) -> fmt::Result {
        write!(
            f,
            "unknown {} '{}', see slotlock --help",
            self.what, self.text
        )
    }
}

// Says that a word on the command line means nothing there, and stops.
pub fn unknown(rt: &HostRuntime, what: &str, text: &str) -> Stop {
    tell(rt, UnknownWord { what, text })
}
