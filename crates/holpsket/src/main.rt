// Reads a schedule on standard input to its end and prints what it found.
#![tactic(auto)]

mod stop;
#[cfg(test)]
mod tests;
mod through;

use std::io;
use std::io::Read;
use through::{MAX_SCHEDULE, last_line, read_through};

fn main(rt: HostRuntime) -> io::Result<()> {
    // One byte more than a schedule has, so that a longer one is seen. Room for it, and to see that there is no more, is made
    // once, before anything is read.
    let mut schedule = Vec::with_capacity(rt.alloc(), MAX_SCHEDULE + 2)?;
    rt.stdin()
        .take(MAX_SCHEDULE as u64 + 1)
        .read_to_end(&mut schedule)?;
    let line = last_line(rt.alloc(), read_through(&schedule))?;
    println!(rt; "{line}")
}
