// A schedule read through to its end.
ghost use Rattle.std.specs.Prelude.{◌≡◌, IfOk, string_bytes};
ghost use Rattle.holpsket.specs.Stops.{last_line};
ghost use Rattle.holpsket.specs.Through.{left, read_through};

use crate::stop::Stop;
use rounds::{Refusal, check_size};
use schedule::{FileRefusal, Reading, Said, next_line};
use std::alloc::{AllocError, Global};

// The most bytes of a schedule. The definition says the number again, so that another one is refused.
pub const MAX_SCHEDULE: usize = 65_536;

// What the line of this number leaves for reading the next.
fn step(reading: &Reading, bytes: &[u8], line: u32) -> Result<Reading, Stop>
    ensures { result ≡ left reading.now line bytes.now }
{
    let said = reading.read(bytes, line)?;
    if let Said::Rig(rig) = said {
        check_size(rig.n, rig.t).map_err(|refusal| Stop::Rig { refusal, line })?;
    }
    let mut next = *reading;
    next.accept(&said);
    Ok(next)
}

// How many lines the schedule has, or the first refusal that reading alone can find.
pub fn read_through(schedule: &[u8]) -> Result<u32, Stop>
    ensures { result ≡ read_through schedule.now }
{
    if schedule.len() > MAX_SCHEDULE {
        return Err(FileRefusal::LineLength { line: 0 }.into());
    }
    if schedule.is_empty() {
        return Err(FileRefusal::Misplaced { line: 1 }.into());
    }
    let mut reading = Reading::begin();
    let mut rest = schedule;
    let mut line = 0;
    // Not an iterator of lines: an item of it could be a line without its end, and this body would be no shorter.
    while !rest.is_empty() {
        line += 1;
        let (bytes, others) = next_line(rest).ok_or(FileRefusal::LineLength { line })?;
        reading = step(&reading, bytes, line)?;
        rest = others;
    }
    Ok(line)
}

// The line that the program prints of what it found.
pub fn last_line(heap: Global, found: Result<u32, Stop>) -> Result<String, AllocError>
    ensures { IfOk result (λ s. string_bytes s ≡ last_line found) }
{
    match found {
        Ok(count) => format!(in heap; "end\t{count}"),
        Err(stop) => {
            let number = stop.number();
            let layer = stop.layer().word();
            let line = stop.line();
            let place = stop.place();
            format!(in heap; "refused\t{number}\t{layer}\t{line}\t{place}")
        }
    }
}
