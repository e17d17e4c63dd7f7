// Numbers and options on a command line.
ghost use Rattle.std.specs.Prelude.{◌≤◌, IfOk};

use console::{Stop, tell, unknown};
use loads::{DEFAULT_SEED, ItemSort, Load};
use schedule::{Keyword, Names};
use std::env::Args;

// The arguments of a command that are still to be read.
#[derive(Drop)]
pub struct Arguments<'a> {
    pub rt: &'a HostRuntime,
    pub args: Args,
}

impl Arguments<'_> {
    // The argument that comes next.
    fn next(&mut self, what: &str) -> Result<String, Stop> {
        if let Some(text) = self.args.next() {
            return Ok(text);
        }
        let message = format!(in self.rt.alloc(); "expected {what}, see slotlock --help")?;
        Err(tell(self.rt, message))
    }

    // The next argument as a number from a least to a most.
    pub fn number(&mut self, what: &str, least: u64, most: u64) -> Result<u64, Stop>
        ensures least { IfOk result (λ n. least ≤ n) }
        ensures most { IfOk result (λ n. n ≤ most) }
    {
        let text = self.next(what)?;
        match text.as_str().parse::<u64>() {
            Ok(n) if least <= n && n <= most => Ok(n),
            _ => {
                let message = format!(in self.rt.alloc();
                    "expected {what}, a number from {least} to {most}, not '{text}'"
                )?;
                Err(tell(self.rt, message))
            }
        }
    }

    // The next argument as one of a few names.
    fn keyword<K: Keyword>(&mut self, what: &str) -> Result<K, Stop> {
        let text = self.next(what)?;
        if let Some(keyword) = K::named(text.as_str()) {
            return Ok(keyword);
        }
        let names = Names { all: K::all() };
        let message = format!(in self.rt.alloc(); "expected {names}, not '{text}'")?;
        Err(tell(self.rt, message))
    }

    // One option with its value.
    fn option(&mut self, load: &mut Load, name: &str) -> Result<(), Stop> {
        match name {
            "--items" => load.sort = self.keyword("a sort of items")?,
            "--sessions" => load.sessions = self.number("sessions", 0, 255)? as u8,
            "--cells" => load.cells = self.number("cells", 0, 65535)? as u16,
            "--seed" => load.seed = self.number("a seed", 1, u64::MAX)?,
            _ => return Err(unknown(self.rt, "option", name)),
        }
        Ok(())
    }

    // The load that the arguments name: SCHEME MODE KEYS TURNS and options.
    pub fn load(&mut self) -> Result<Load, Stop> {
        let scheme = self.keyword("a reclaimer")?;
        let mode = self.keyword("a mode")?;
        let keys = self.number("keys", 1, 65535)? as u16;
        let turns = self.number("turns", 0, u64::MAX)?;
        let mut load = Load {
            scheme,
            sessions: 8,
            cells: 256,
            sort: ItemSort::Numbers,
            keys,
            mode,
            seed: DEFAULT_SEED,
            turns,
        };
        // Not a `for` over the arguments, since an option takes its value from them too, and not a `while`, which would owe
        // a measure.
        for _ in 0..u64::MAX {
            let Some(name) = self.args.next() else {
                break;
            };
            self.option(&mut load, name.as_str())?;
        }
        Ok(load)
    }

    // Nothing more is expected.
    pub fn end(&mut self, what: &str) -> Result<(), Stop> {
        match self.args.next() {
            Some(_) => Err(tell(self.rt, what)),
            None => Ok(()),
        }
    }
}
