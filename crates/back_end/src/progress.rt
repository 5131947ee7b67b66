// What every back end that is built keeps, apart from its verdicts and how it comes to them.
ghost use Rattle.std.specs.Prelude.{◌^◌, ◌<◌, ◌≤◌};
ghost use Rattle.console_sets.specs.Bound.{max_consoles};

use console_sets::{ConsoleSet, MAX_CONSOLES};

// Console c has its entry at the index c - 1, 0 for none: so the rules have it.
#[derive(Clone, Copy)]
pub struct Progress {
    pub n: u8,
    pub t: u8,
    pub running: ConsoleSet,
    pub entries: [u8; MAX_CONSOLES],
    pub rounds: u32,
    pub steady: u32,
    ghost few: { n ≤ max_consoles },
    ghost within: { running < 2 ^ n },
    ghost counted: { steady ≤ rounds },
}
