// What a round leaves of the estimates and verdicts, console by console.
ghost use Rattle.std.specs.Prelude.{◌≡◌};
ghost use Rattle.rounds.specs.Items.{at};
ghost use Rattle.back_end.specs.Votes.{common};
ghost use Rattle.third.specs.Rule.{estimate_after, verdict_after};

use crate::polls::Poll;
use console_sets::{ConsoleSet, has};
use rounds::item_or;

// A round that the consoles of `complete` complete, with their rows, and of each author the set of the consoles that have
// it at the round's start.
#[derive(Clone, Copy)]
pub struct Round<'a> {
    pub n: u8,
    pub complete: ConsoleSet,
    pub rows: &'a [ConsoleSet],
    pub backers: &'a [ConsoleSet],
}

impl Round<'_> {
    // What the console of index c hears.
    fn poll(&self, c: u8) -> Poll<'_>
        ensures n { result.n ≡ self.now.n }
        ensures row { result.row ≡ at self.now.rows.now c }
        ensures backers { result.backers.now ≡ self.now.backers.now }
    {
        Poll {
            n: self.n,
            row: item_or(self.rows, c, 0),
            backers: self.backers,
        }
    }

    // Its estimate after the round.
    pub fn estimate(&self, estimates: &[u8], c: u8) -> u8
        ensures { result ≡ estimate_after self.now.n self.now.complete (λ d. common (at self.now.rows.now d) self.now.backers.now) estimates.now c }
    {
        if has(self.complete, c) {
            self.poll(c).favourite()
        } else {
            item_or(estimates, c, 0)
        }
    }

    // Its verdict after the round.
    pub fn verdict(&self, verdicts: &[u8], c: u8) -> u8
        ensures { result ≡ verdict_after self.now.n self.now.complete (λ d. common (at self.now.rows.now d) self.now.backers.now) verdicts.now c }
    {
        let had = item_or(verdicts, c, 0);
        if has(self.complete, c) & (had == 0) {
            self.poll(c).elected()
        } else {
            had
        }
    }
}
