// What make, start and round do alike in every back end that keeps a Progress.
ghost use Rattle.std.specs.Prelude.{◌≡◌, ℕ, if◌then◌else◌};
ghost use Rattle.console_sets.specs.Sets.{member};
ghost use Rattle.rounds.specs.Items.{at};
ghost use Rattle.rounds.specs.Refusals.{Answers};
ghost use Rattle.rounds.specs.Checks.{make_refusal, start_refusal, round_refusal};
ghost use Rattle.back_end.specs.Kept.{Makes, Starts, Advances};

use crate::progress::Progress;
use console_sets::{ConsoleSet, MAX_CONSOLES, array_of, difference, has};
use rounds::{Refusal, check_make, check_round, check_start, is_steady, item_or};

impl Progress {
    // The progress as made for n and t, given whether they are served.
    pub fn make(n: u8, t: u8, serves: bool) -> Result<Progress, Refusal>
        ensures { Answers result (make_refusal serves n t) (Makes n t) }
    {
        check_make(n, t, serves)?;
        Ok(Progress {
            n,
            t,
            running: 0,
            entries: [0; MAX_CONSOLES],
            rounds: 0,
            steady: 0,
        })
    }

    // The progress after a start.
    pub fn started(&self, running: ConsoleSet, entries: &[u8]) -> Result<Progress, Refusal>
        ensures { Answers result (start_refusal self.now.n self.now.t running entries.now) (Starts running entries.now self.now) }
    {
        check_start(self.n, self.t, running, entries)?;
        Ok(Progress {
            n: self.n,
            t: self.t,
            running,
            entries: entered(running, entries),
            rounds: 0,
            steady: 0,
        })
    }

    // The progress after a round.
    pub fn advanced(&self, falls: ConsoleSet, rows: &[ConsoleSet]) -> Result<Progress, Refusal>
        ensures { Answers result (round_refusal self.now.n self.now.t self.now.running self.now.rounds falls rows.now) (Advances falls rows.now self.now) }
    {
        check_round(self.n, self.t, self.running, self.rounds, falls, rows)?;
        let steady = if is_steady(self.n, self.running, falls, rows) {
            self.steady + 1
        } else {
            0
        };
        Ok(Progress {
            n: self.n,
            t: self.t,
            running: difference(self.running, falls),
            entries: self.entries,
            rounds: self.rounds + 1,
            steady,
        })
    }
}

// The entries of the consoles that run, and 0 for the others.
fn entered(running: ConsoleSet, entries: &[u8]) -> [u8; MAX_CONSOLES]
    ensures { (c : ℕ) → at result c ≡ (if member running c then at entries.now c else 0) }
{
    array_of(|c| {
        if has(running, c) {
            item_or(entries, c, 0)
        } else {
            0
        }
    })
}
