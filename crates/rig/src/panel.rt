// What a rig keeps beside its back end.
ghost use Rattle.std.specs.Prelude.{◌≡◌, ◌≤◌, length};
ghost use Rattle.console_sets.specs.Bound.{max_consoles};
ghost use Rattle.rig.specs.Bound.{max_pages};

use crate::page::Page;
use console_sets::{ConsoleSet, MAX_CONSOLES};
use front::Console;

// The most pages of a book. `specs/Bound` says the number again, so that another one here is refused.
pub const MAX_PAGES: usize = 64;

// The setting, who runs, and the latest press with what each console has in it.
#[derive(Drop)]
pub struct Panel {
    pub(crate) number: u16,
    pub(crate) n: u8,
    pub(crate) t: u8,
    pub(crate) running: ConsoleSet,
    // The number of the latest press, 0 before the first.
    pub(crate) press: u32,
    pub(crate) open: bool,
    // The accepted rounds of the latest press.
    pub(crate) rounds: u32,
    pub(crate) ranks: [u8; MAX_CONSOLES],
    pub(crate) consoles: [Console; MAX_CONSOLES],
    ghost few: { n ≤ max_consoles },
}

// The pages of closed presses, the page of press p at the index p - 1.
// An array with its count beside it: a `Vec` would allocate, and no call of a rig does.
#[derive(Drop)]
pub struct Book {
    pub(crate) pages: [Page; MAX_PAGES],
    pub(crate) count: usize,
    ghost room: { count ≤ max_pages },
    ghost long: { length pages ≡ max_pages },
}
