// The program: runs schedules and loads on a slot-lock board.
#![tactic(auto)]

mod answers;
mod help;

use console::{Stop, tell, unknown};
use help::HELP;
use std::env;
use std::env::Args;
use std::process::ExitCode;
use tables::{compare, run};
use trials::{fuzz, load};

fn command(rt: &HostRuntime, name: &str, args: Args) -> Result<(), Stop> {
    match name {
        "run" => run::command(rt, args),
        "answers" => answers::command(rt, args),
        "compare" => compare::command(rt, args),
        "load" => load::command(rt, args),
        "fuzz" => fuzz::command(rt, args),
        "help" | "--help" => {
            print!(rt; "{HELP}")?;
            Ok(())
        }
        _ => Err(unknown(rt, "command", name)),
    }
}

fn go(rt: &HostRuntime) -> Result<(), Stop> {
    let mut args = env::args(rt)?;
    let name = args.nth(1);
    match name {
        Some(name) => command(rt, name.as_str(), args),
        None => command(rt, "help", args),
    }
}

// A command that is stopped has said why, on standard error or as a refusal.
fn main(rt: HostRuntime) -> ExitCode {
    match go(&rt) {
        Ok(()) => return ExitCode::SUCCESS,
        Err(Stop::Told) => {}
        Err(Stop::Io(e)) => {
            let _ = tell(&rt, e);
        }
        Err(Stop::Memory) => {
            let _ = tell(&rt, "not enough memory");
        }
    }
    ExitCode::FAILURE
}
