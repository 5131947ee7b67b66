// Which consoles have an author, for all authors at once, so that the votes of a row are counted as ones.
ghost use Rattle.std.specs.Prelude.{◌≡◌};
ghost use Rattle.back_end.specs.Votes.{common, Backers};

use console_sets::{ConsoleSet, MAX_CONSOLES, array_of, set_of};
use rounds::{is_author, item_or};

// Of each author the set of the consoles up to n that have it: at the index a, of the author a + 1.
pub fn backers(n: u8, authors: &[u8]) -> [ConsoleSet; MAX_CONSOLES]
    ensures { Backers n authors.now result }
{
    array_of(|a| set_of(n, |c| is_author(item_or(authors, c, 0), a)))
}

// How many consoles of the row are in the set at the index a.
pub fn votes_of(row: ConsoleSet, backers: &[ConsoleSet], a: u8) -> u32
    ensures { result ≡ common row backers.now a }
{
    (row & item_or(backers, a, 0)).count_ones()
}
