// What a console hears of the estimates at a round's start.
ghost use Rattle.std.specs.Prelude.{◌≡◌};
ghost use Rattle.back_end.specs.Votes.{common};
ghost use Rattle.third.specs.Rule.{favourite, elected};

use back_end::{largest_of, votes_of};
use console_sets::{ConsoleSet, lowest_of};

// A row, and of each author the set of the consoles that have it.
#[derive(Clone, Copy)]
pub struct Poll<'a> {
    pub n: u8,
    pub row: ConsoleSet,
    pub backers: &'a [ConsoleSet],
}

impl Poll<'_> {
    // How many consoles in the row have the author of index a.
    fn votes(&self, a: u8) -> u32
        ensures { result ≡ common self.now.row self.now.backers.now a }
    {
        votes_of(self.row, self.backers, a)
    }

    // The author with the most votes, of several the lowest, or 0 for none.
    pub fn favourite(&self) -> u8
        ensures { result ≡ favourite (common self.now.row self.now.backers.now) self.now.n }
    {
        let most = largest_of(self.n, |a| self.votes(a));
        lowest_of(self.n, |a| self.votes(a) == most).unwrap_or(0)
    }

    // The author that more than two thirds of all n consoles have, or 0 for none.
    pub fn elected(&self) -> u8
        ensures { result ≡ elected (common self.now.row self.now.backers.now) self.now.n }
    {
        lowest_of(self.n, |a| {
            2 * (self.n as u64) < 3 * (self.votes(a) as u64)
        })
        .unwrap_or(0)
    }
}
