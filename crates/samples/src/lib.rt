#![tactic(auto)]

ghost use Rattle.std.specs.Prelude.{◌≡◌, length};
ghost use Rattle.samples.specs.Samples.{samples, AllHold};

// How many sample schedules there are. Every one of them holds.
pub fn samples_hold() -> usize
    ensures count { result ≡ length samples }
    ensures all { AllHold samples }
{
    13
}
