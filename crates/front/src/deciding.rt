// Round t + 2: who decides what, and with which entry each console goes to the back end.
// What a round has (n, t, who completes it, rows, consoles) is given as parameters: only the rig calls these functions, once
// each, and with a struct each clause would go a field deeper.
ghost use Rattle.std.specs.Prelude.{◌≡◌, ℕ, ◌<◌};
ghost use Rattle.std.specs.Option.{ForSome, option_map_or};
ghost use Rattle.console_sets.specs.Bound.{max_consoles};
ghost use Rattle.rounds.specs.Items.{at};
ghost use Rattle.front.specs.Consoles.{state_of};
ghost use Rattle.front.specs.Deciding.{estimate_of, outcome_of, deciding, entry, after_deciding, entries_after};

use crate::consoles::{Cause, Console, console_at};
use crate::hearing::Heard;
use console_sets::{ConsoleSet, MAX_CONSOLES, array_of, has, lowest_of};

// What round t + 2 gives to a console that completes it: an author.
#[derive(Clone, Copy)]
enum Outcome {
    // Its decision, and its entry too.
    Decision(u8),
    // Its entry, without a decision.
    Entry(u8),
}

// What each console has after round t + 2, by who completes it and whom each heard. Who does not complete it keeps what it
// has.
pub fn after_deciding(
    n: u8,
    t: u8,
    completing: ConsoleSet,
    rows: &[ConsoleSet],
    consoles: &[Console; MAX_CONSOLES],
) -> [Console; MAX_CONSOLES]
    ensures { (c : ℕ) → state_of result c ≡ after_deciding n t completing rows.now (state_of consoles.now) c }
{
    array_of(|c| {
        let had = console_at(consoles, c);
        match Heard::by(completing, rows, consoles, c) {
            Some(heard) => had.deciding(t, heard.outcome(n, t, c)),
            None => had,
        }
    })
}

// The entries of the consoles that complete round t + 2, and 0 for the others.
pub fn entries(
    n: u8,
    t: u8,
    completing: ConsoleSet,
    rows: &[ConsoleSet],
    consoles: &[Console; MAX_CONSOLES],
) -> [u8; MAX_CONSOLES]
    ensures { (c : ℕ) → at result c ≡ entries_after n t completing rows.now (state_of consoles.now) c }
{
    array_of(|c| match Heard::by(completing, rows, consoles, c) {
        Some(heard) => heard.outcome(n, t, c).entry(),
        None => 0,
    })
}

impl Heard<'_> {
    // What the round gives to the console of index i, which completes it.
    fn outcome(&self, n: u8, t: u8, i: u8) -> Outcome
        requires { i < max_consoles }
        ensures { result ≡ outcome_of n t self.now.row (state_of self.now.consoles.now) i }
    {
        if lowest_of(n, |j| self.hears_missing(t, j)).is_none() {
            let heard = lowest_of(n, |j| has(self.row, j));
            Outcome::Decision(self.estimate_or(heard, 0))
        } else {
            let present = lowest_of(n, |j| self.hears_present(t, j));
            Outcome::Entry(self.estimate_or(present, i + 1))
        }
    }

    // The estimate of the console of this number, or `other` if there is none.
    fn estimate_or(&self, console: Option<u8>, other: u8) -> u8
        requires { ForSome console (λ number. 0 < number) }
        ensures { result ≡ option_map_or (estimate_of (state_of self.now.consoles.now)) console other }
    {
        console.map_or(
            other,
            |number| console_at(self.consoles, number - 1).estimate,
        )
    }
}

impl Console {
    // The console with what round t + 2 gave it.
    fn deciding(self, t: u8, outcome: Outcome) -> Console
        ensures { result ≡ deciding t self outcome }
    {
        match outcome {
            Outcome::Decision(author) => Console {
                decision: author,
                round: t as u32 + 2,
                cause: Cause::Front,
                ..self
            },
            Outcome::Entry(_) => self,
        }
    }
}

impl Outcome {
    // The entry for the back end.
    fn entry(self) -> u8
        ensures { result ≡ entry self }
    {
        match self {
            Outcome::Decision(author) | Outcome::Entry(author) => author,
        }
    }
}
