// The schedule that a command is given: a file, or standard input.
use crate::stop::{Stop, tell};
use schedule::{Schedule, Unread};
use std::io::{BufReader, Read};
use std::{fmt, fs, io};

// A file that could not be read.
#[derive(Drop)]
struct Unreadable<'a> {
    path: &'a str,
    why: io::Error,
}

impl fmt::Display for Unreadable<'_> {
    fn fmt<W: fmt::Write>(&self, f: &mut fmt::Formatter<W>) -> fmt::Result {
        write!(f, "{}: {}", self.path, self.why)
    }
}

fn standard_input(rt: &HostRuntime) -> Result<Vec<u8>, Stop> {
    let mut bytes = Vec::new(rt.alloc());
    let mut from = BufReader::new(rt.alloc(), rt.stdin())?;
    from.read_to_end(&mut bytes)?;
    Ok(bytes)
}

// The bytes of a file. The path `-` is standard input.
fn bytes(rt: &HostRuntime, path: &str) -> Result<Vec<u8>, Stop> {
    if path == "-" {
        return standard_input(rt);
    }
    fs::read(rt, path).map_err(|why| tell(rt, Unreadable { path, why }))
}

// Reads the schedule, or says what is wrong with it. The path `-` is standard input.
pub fn schedule(rt: &HostRuntime, path: &str) -> Result<Schedule, Stop> {
    let bytes = bytes(rt, path)?;
    schedule::read(rt.alloc(), bytes.as_slice()).map_err(|why| match why {
        Unread::TooLong => Stop::told(println!(rt; "refused 4")),
        why => tell(rt, why),
    })
}
