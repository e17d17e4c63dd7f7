// What is done with a schedule, whatever its reclaimer and its items.
ghost use Rattle.std.specs.Prelude.{◌≡◌, min};

use schedule::{Items, Job, Schedule, with_reclaimer};
use std::alloc::Global;

// A number of sessions as a reclaimer takes it; one past its range stays past it.
pub fn sessions_of(schedule: &Schedule) -> u8
    ensures { result ≡ min schedule.now.sessions 255 }
{
    u8::try_from(schedule.sessions).unwrap_or(u8::MAX)
}

// Does a job with the schedule's own reclaimer and items.
pub fn with_schedule<J: Job>(heap: Global, schedule: &Schedule, job: J) -> J::Output {
    let scheme = schedule.reclaimer;
    let sessions = sessions_of(schedule);
    let cells = schedule.cells;
    match &schedule.items {
        Items::Numbers(numbers) => with_reclaimer(
            heap,
            scheme,
            sessions,
            cells,
            numbers.as_slice(),
            job,
        ),
        Items::Bytes(strings) => with_reclaimer(
            heap,
            scheme,
            sessions,
            cells,
            strings.as_slice(),
            job,
        ),
    }
}
