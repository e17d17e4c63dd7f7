// `slotlock load`: one seeded load, with its figures.
use crate::options::Arguments;
use console::Stop;
use loads::{Done, Figures, Report};
use std::env::Args;
use std::time::Instant;

// Hundredths of nanoseconds for each of so many.
fn share(nanos: u128, n: u64) -> u128 {
    nanos
        .saturating_mul(100)
        .checked_div(u128::from(n))
        .unwrap_or(0)
}

fn print(rt: &HostRuntime, figures: Figures) -> Result<(), Stop> {
    let Figures {
        words,
        operations,
        refusals,
        most_held,
        ..
    } = figures;
    println!(rt; "words       {words}")?;
    println!(rt; "operations  {operations}")?;
    println!(rt; "refusals    {refusals}")?;
    println!(rt; "most held   {most_held}")?;
    Ok(())
}

fn time(rt: &HostRuntime, what: &str, nanos: u128, n: u64) -> Result<(), Stop> {
    let each = share(nanos, n);
    let whole = each / 100;
    let rest = each % 100;
    eprintln!(rt; "time for each {what} {whole}.{rest:02} ns")?;
    Ok(())
}

pub fn command(rt: &HostRuntime, args: Args) -> Result<(), Stop> {
    let load = Arguments { rt, args }.load()?;
    let start = Instant::now(rt)?;
    let outcome = loads::run(rt.alloc(), load)?;
    let nanos = start.elapsed(rt)?.as_nanos();
    let report = Report { load, outcome };
    println!(rt; "{report}")?;
    let Ok(Done { figures, .. }) = outcome else {
        return Err(Stop::Told);
    };
    print(rt, figures)?;
    time(rt, "word", nanos, figures.words)?;
    time(rt, "operation", nanos, figures.operations)
}
