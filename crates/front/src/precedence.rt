// Who precedes all others, by ranks: of two authors the one with the lower rank precedes.
ghost use Rattle.std.specs.Prelude.{◌≡◌};
ghost use Rattle.rounds.specs.Items.{at};
ghost use Rattle.front.specs.Searches.{ahead, first, foremost};

use console_sets::{ConsoleSet, has, lowest_of};
use rounds::item_or;

// The author of the set that precedes all others of it, 0 if there is none.
pub(crate) fn foremost(n: u8, ranks: &[u8], authors: ConsoleSet) -> u8
    ensures { result ≡ foremost n (at ranks.now) authors }
{
    lowest_of(n, |a| is_first(n, ranks, authors, a)).unwrap_or(0)
}

// Whether an author is in the set and none of the set precedes it.
fn is_first(n: u8, ranks: &[u8], authors: ConsoleSet, a: u8) -> bool
    ensures { result ≡ first n (at ranks.now) authors a }
{
    has(authors, a) && lowest_of(n, |b| is_ahead(ranks, authors, a, b)).is_none()
}

// Whether the author b is in the set and precedes the author a: its rank is lower.
fn is_ahead(ranks: &[u8], authors: ConsoleSet, a: u8, b: u8) -> bool
    ensures { result ≡ ahead (at ranks.now) authors a b }
{
    has(authors, b) && item_or(ranks, b, 0) < item_or(ranks, a, 0)
}
