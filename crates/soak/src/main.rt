// Runs loads over every reclaimer, a range of sizes, both sorts of items and every mode, and prints their check sums.
#![tactic(auto)]

use loads::{DEFAULT_SEED, Done, ItemSort, Load, Mode, Report, mix};
use schedule::{Keyword, Scheme};
use std::alloc::Global;
use std::env;
use std::io::{BufWriter, Write};

const DEFAULT_TURNS: u64 = 2000;

// Sessions, cells and keys.
const SIZES: [(u8, u16, u16); 6] = [
    (1, 1, 4),
    (2, 2, 4),
    (3, 5, 8),
    (8, 16, 16),
    (8, 64, 64),
    (8, 256, 1024),
];

// Runs each load from a seed of its own and prints its line, and at the end all words and the sum of the sums.
fn soak<W: Write>(heap: Global, out: &mut W, turns: u64) -> anyhow::Result<()> {
    let mut seed = DEFAULT_SEED;
    let mut words = 0u64;
    let mut sum = 0;
    for scheme in Scheme::all() {
        for (sessions, cells, keys) in SIZES {
            for sort in ItemSort::all() {
                for mode in Mode::all() {
                    let load = Load {
                        scheme: *scheme,
                        sessions,
                        cells,
                        sort: *sort,
                        keys,
                        mode: *mode,
                        seed,
                        turns,
                    };
                    seed = seed.wrapping_add(1);
                    let outcome = loads::run(heap, load)?;
                    writeln!(out, "{}", Report { load, outcome })?;
                    if let Ok(Done { figures, .. }) = outcome {
                        words = words.saturating_add(figures.words);
                        sum = mix(sum, figures.sum);
                    }
                }
            }
        }
    }
    writeln!(out, "total words {words} sum {sum:016x}")?;
    Ok(())
}

fn turns(rt: &HostRuntime) -> anyhow::Result<u64> {
    let Some(text) = env::args(rt)?.nth(1) else {
        return Ok(DEFAULT_TURNS);
    };
    Ok(text.as_str().parse()?)
}

fn main(rt: HostRuntime) -> anyhow::Result<()> {
    let turns = turns(&rt)?;
    let mut out = BufWriter::new(rt.alloc(), rt.stdout())?;
    soak(rt.alloc(), &mut out, turns)?;
    out.flush()?;
    Ok(())
}
