// The author that a press decided on.
ghost use Rattle.std.specs.Prelude.{◌≡◌};
ghost use Rattle.front.specs.Consoles.{state_of};
ghost use Rattle.sheet.specs.Lines.{has_decided, author_of};

use console_sets::{MAX_CONSOLES, lowest_of};
use front::{Console, console_at};

// The decision of the lowest of the consoles 1 to n that has one, 0 if none has.
pub(crate) fn author_of(n: u8, consoles: &[Console; MAX_CONSOLES]) -> u8
    ensures { result ≡ author_of n (state_of consoles.now) }
{
    lowest_of(n, |c| has_decided(consoles, c)).map_or(
        0,
        |number| console_at(consoles, number - 1).decision,
    )
}

// Whether the console of index c has a decision.
fn has_decided(consoles: &[Console; MAX_CONSOLES], c: u8) -> bool
    ensures { result ≡ has_decided (state_of consoles.now) c }
{
    console_at(consoles, c).decision != 0
}
