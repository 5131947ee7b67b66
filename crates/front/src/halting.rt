// Rounds 1 to t + 1: gaining the halt set, and the authors among whom the estimate is chosen. Parameters as in `deciding`.
ghost use Rattle.std.specs.Prelude.{◌≡◌, ℕ, ◌≤◌, min};
ghost use Rattle.console_sets.specs.Bound.{max_consoles};
ghost use Rattle.rounds.specs.Items.{at};
ghost use Rattle.front.specs.Consoles.{state_of};
ghost use Rattle.front.specs.Searches.{some};
ghost use Rattle.front.specs.Halting.{halts, offers, candidates, halting, after_halting};

use crate::consoles::{Console, console_at};
use crate::hearing::Heard;
use crate::precedence::foremost;
use console_sets::{ConsoleSet, MAX_CONSOLES, array_of, has, lowest_of, set_of};
use rounds::is_author;

// What each console has after a round of 1 to t + 1, by who completes it and whom each heard. Who does not complete it keeps
// what it has. An n above MAX_CONSOLES counts as MAX_CONSOLES.
pub fn after_halting(
    n: u8,
    ranks: &[u8],
    completing: ConsoleSet,
    rows: &[ConsoleSet],
    consoles: &[Console; MAX_CONSOLES],
) -> [Console; MAX_CONSOLES]
    ensures { (c : ℕ) → state_of result c ≡ after_halting (min n max_consoles) (at ranks.now) completing rows.now (state_of consoles.now) c }
{
    let n = n.min(MAX_CONSOLES as u8);
    array_of(|c| match Heard::by(completing, rows, consoles, c) {
        Some(heard) => heard.halting(n, ranks, c),
        None => console_at(consoles, c),
    })
}

impl Heard<'_> {
    // What the console of index i has after a round that it completes. That n is at most MAX_CONSOLES is asked here, in
    // `candidates` and in the rig: of a type for such an n, each definition would say which number it holds.
    fn halting(&self, n: u8, ranks: &[u8], i: u8) -> Console
        requires { n ≤ max_consoles }
        ensures { result ≡ halting n (at ranks.now) self.now.row (state_of self.now.consoles.now) i }
    {
        let had = console_at(self.consoles, i);
        let halt = set_of(n, |j| self.halts(i, j));
        let authors = self.candidates(n, halt);
        Console {
            estimate: foremost(n, ranks, authors),
            halt,
            ..had
        }
    }

    // Whether the new halt set of i holds j: the old one did, or i did not hear j, or that of j held i.
    fn halts(&self, i: u8, j: u8) -> bool
        ensures { result ≡ halts self.now.row (state_of self.now.consoles.now) i j }
    {
        has(console_at(self.consoles, i).halt, j)
            || !has(self.row, j)
            || has(console_at(self.consoles, j).halt, i)
    }

    // The authors that are the estimate of a console in the row and outside the halt set.
    fn candidates(&self, n: u8, halt: ConsoleSet) -> ConsoleSet
        requires { n ≤ max_consoles }
        ensures { result ≡ candidates n self.now.row halt (state_of self.now.consoles.now) }
    {
        set_of(n, |a| self.is_offered(n, halt, a))
    }

    // Whether some console offers the author of index a.
    fn is_offered(&self, n: u8, halt: ConsoleSet, a: u8) -> bool
        ensures { result ≡ some (offers self.now.row halt (state_of self.now.consoles.now) a) n }
    {
        lowest_of(n, |j| self.offers(halt, a, j)).is_some()
    }

    // Whether j is in the row and outside the halt set, and its estimate is the author of index a.
    fn offers(&self, halt: ConsoleSet, a: u8, j: u8) -> bool
        ensures { result ≡ offers self.now.row halt (state_of self.now.consoles.now) a j }
    {
        has(self.row, j) && !has(halt, j) && is_author(console_at(self.consoles, j).estimate, a)
    }
}
