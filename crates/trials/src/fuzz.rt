// `slotlock fuzz`: gives damaged texts to the reader, and counts what it says.
use crate::damage::damaged;
use crate::options::Arguments;
use crate::samples::SAMPLES;
use console::Stop;
use loads::Generator;
use schedule::Unread;
use std::alloc::Global;
use std::collections::BTreeMap;
use std::env::Args;

// What the reader said: how many texts it read, and each message with how often it came.
#[derive(Drop)]
struct Tally {
    read: u64,
    refused: u64,
    messages: BTreeMap<String, u64>,
}

impl Tally {
    fn refuse(&mut self, message: String) -> Result<(), Stop> {
        self.refused = self.refused.saturating_add(1);
        let count = self.messages.entry(message)?.or_insert(0);
        *count = count.saturating_add(1);
        Ok(())
    }

    fn note(&mut self, heap: Global, text: &[u8]) -> Result<(), Stop> {
        match schedule::read(heap, text) {
            Ok(_) => {
                self.read = self.read.saturating_add(1);
                Ok(())
            }
            Err(Unread::Bad { expected, .. }) => self.refuse(format!(in heap;
                "expected {expected}"
            )?),
            Err(why) => self.refuse(why.to_string(heap)?),
        }
    }
}

// The sample that a number draws.
fn sample(r: u64) -> &'static str {
    SAMPLES[(r % 3) as usize]
}

fn trials(heap: Global, seed: u64, count: u64) -> Result<Tally, Stop> {
    let mut numbers = Generator { state: seed };
    let mut tally = Tally {
        read: 0,
        refused: 0,
        messages: BTreeMap::new(heap),
    };
    for _ in 0..count {
        let text = sample(numbers.next());
        let bytes = damaged(heap, &mut numbers, text.as_bytes())?;
        tally.note(heap, bytes.as_slice())?;
    }
    Ok(tally)
}

fn print(rt: &HostRuntime, seed: u64, count: u64, tally: &Tally) -> Result<(), Stop> {
    let read = tally.read;
    let refused = tally.refused;
    println!(rt; "seed {seed} texts {count}: read {read} refused {refused}")?;
    for (message, times) in tally.messages.iter() {
        println!(rt; "{times:>8}  {message}")?;
    }
    Ok(())
}

pub fn command(rt: &HostRuntime, args: Args) -> Result<(), Stop> {
    let mut arguments = Arguments { rt, args };
    let seed = arguments.number("a seed", 1, u64::MAX)?;
    let count = arguments.number("a number of texts", 0, u64::MAX)?;
    arguments.end("expected a seed and a number of texts only")?;
    let tally = trials(rt.alloc(), seed, count)?;
    print(rt, seed, count, &tally)
}
