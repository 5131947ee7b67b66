// A console of Leader.
ghost use Rattle.std.specs.Prelude.{◌≡◌};
ghost use Rattle.leader.specs.Rule.{opening, who};

use rounds::item_or;

#[derive(Clone, Copy, PartialEq, Eq)]
pub enum Kind {
    Prepare,
    Commit,
}

// What a console has. The stamp is a round's number; estimate, leader and verdict are consoles' numbers, 0 for none, as in
// the entries and verdicts of the interface.
#[derive(Clone, Copy)]
pub struct Console {
    pub estimate: u8,
    pub stamp: u32,
    pub kind: Kind,
    pub leader: u8,
    pub verdict: u8,
}

impl Console {
    // A console as a start leaves it, by its entry.
    pub fn opening(entry: u8) -> Console
        ensures { result ≡ opening entry }
    {
        Console {
            estimate: entry,
            stamp: 0,
            kind: Kind::Prepare,
            leader: 1,
            verdict: 0,
        }
    }
}

// The console at the index c, or beyond the end one without an entry.
pub fn console_at(consoles: &[Console], c: u8) -> Console
    ensures { result ≡ who consoles.now c }
{
    item_or(consoles, c, Console::opening(0))
}
