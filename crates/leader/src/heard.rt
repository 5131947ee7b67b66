// What a console hears in a round, and what it asks about the consoles in its row.
ghost use Rattle.std.specs.Prelude.{◌≡◌, ℕ, ◌-◌, ◌<◌, Bool, not, ◌&&◌, if◌then◌else◌, ◌==◌, Some, None, option_map};
ghost use Rattle.console_sets.specs.Calls.{Computes};
ghost use Rattle.console_sets.specs.Sets.{console_of, lowest, member};
ghost use Rattle.leader.specs.Namers.{Tells};
ghost use Rattle.leader.specs.Rule.{who, is_commit, informed, majority, peak, named};

use crate::console::{Console, Kind, console_at};
use back_end::{largest_of, votes_of};
use console_sets::{ConsoleSet, has, lowest_of};

// A row, the consoles at the round's start, and of each of them the set of those that name it.
#[derive(Clone, Copy)]
pub struct Heard<'a> {
    pub n: u8,
    pub row: ConsoleSet,
    pub consoles: &'a [Console],
    pub namers: &'a [ConsoleSet],
    ghost tells: { Tells n (who consoles.now) namers.now },
}

// Whether a number of consoles is more than n/2.
pub fn is_majority(n: u8, number: u32) -> bool
    ensures { result ≡ majority n number }
{
    (n as u64) < 2 * number as u64
}

impl Heard<'_> {
    // The lowest console up to n whose index passes the test, if one does.
    pub fn lowest<T: Fn(u8) -> bool>(&self, test: T) -> Option<Console>
        requires { (c : ℕ) → c < self.now.n → T.pre test c }
        ensures { (p : ℕ → Bool) → Computes self.now.n (T.post test) p → result ≡ option_map (λ number. who self.now.consoles.now (number - 1)) (console_of (lowest p self.now.n)) }
    {
        lowest_of(self.n, test).map(|number| console_at(self.consoles, number - 1))
    }

    // The verdict of the lowest console in the row that has one, if there is one.
    pub fn verdict(&self) -> Option<u8>
        ensures { result ≡ option_map (λ number. (who self.now.consoles.now (number - 1)).verdict) (console_of (informed self.now.n self.now.row (who self.now.consoles.now))) }
    {
        self.lowest(|c| self.is_informed(c))
            .map(|teller| teller.verdict)
    }

    // The highest stamp in the row.
    pub fn peak(&self) -> u32
        ensures { result ≡ peak self.now.n self.now.row (who self.now.consoles.now) }
    {
        largest_of(self.n, |c| self.stamp(c))
    }

    // The console at the index c, if it is in the row.
    fn console(&self, c: u8) -> Option<Console>
        ensures { result ≡ (if member self.now.row c then Some (who self.now.consoles.now c) else None) }
    {
        has(self.row, c).then(|| console_at(self.consoles, c))
    }

    // Whether it is there and has a verdict.
    fn is_informed(&self, c: u8) -> bool
        ensures { result ≡ (member self.now.row c && not ((who self.now.consoles.now c).verdict == 0)) }
    {
        self.console(c).is_some_and(|console| console.verdict != 0)
    }

    // Whether it is there and has kind commit.
    pub fn is_committed(&self, c: u8) -> bool
        ensures { result ≡ (member self.now.row c && is_commit (who self.now.consoles.now c).kind) }
    {
        self.console(c)
            .is_some_and(|console| console.kind == Kind::Commit)
    }

    // Its stamp, or 0 if it is not there.
    fn stamp(&self, c: u8) -> u32
        ensures { result ≡ (if member self.now.row c then (who self.now.consoles.now c).stamp else 0) }
    {
        self.console(c).map_or(0, |console| console.stamp)
    }

    // Whether it is there and has this stamp.
    pub fn tops(&self, highest: u32, c: u8) -> bool
        ensures { result ≡ (member self.now.row c && (who self.now.consoles.now c).stamp == highest) }
    {
        self.console(c)
            .is_some_and(|console| console.stamp == highest)
    }

    // Whether, besides, more than n/2 in the row name it.
    pub fn leads(&self, highest: u32, c: u8) -> bool
        requires within { c < self.now.n }
        ensures { result ≡ ((member self.now.row c && (who self.now.consoles.now c).stamp == highest) && majority self.now.n (named self.now.n self.now.row (who self.now.consoles.now) c)) }
    {
        self.tops(highest, c) && is_majority(self.n, votes_of(self.row, self.namers, c))
    }
}
