// Third as a back end.
ghost use Rattle.std.specs.Prelude.{◌≡◌};
ghost use Rattle.rounds.specs.Refusals.{Answers};
ghost use Rattle.back_end.specs.Calls.{start_refused, round_refused, Started, Rounded};
ghost use Rattle.third.specs.Rule.{third_serves};
ghost use Rattle.third.specs.Means.{third_meaning, Opens, Steps};
ghost use Rattle.third.specs.Keeps;

use crate::state::Third;
use crate::steps::Round;
use back_end::{BackEnd, Progress, backers};
use console_sets::{ConsoleSet, MAX_CONSOLES, array_of};
use rounds::{Refusal, check_console};

impl Third {
    // A Third after a start. Ends as `make` does; a function for both would have to ask of a progress what every Third keeps.
    fn started(&self, running: ConsoleSet, entries: &[u8]) -> Result<Third, Refusal>
        ensures { Answers result (start_refused (third_meaning self.now) running entries.now) (λ after. Started running entries.now (third_meaning self.now) (third_meaning after) × Opens after) }
    {
        let progress = self.progress.started(running, entries)?;
        let estimates = progress.entries;
        Ok(Third {
            progress,
            estimates,
            verdicts: [0; MAX_CONSOLES],
        })
    }

    // One after a round.
    fn advanced(&self, falls: ConsoleSet, rows: &[ConsoleSet]) -> Result<Third, Refusal>
        ensures { Answers result (round_refused (third_meaning self.now) falls rows.now) (λ after. Rounded falls rows.now (third_meaning self.now) (third_meaning after) × Steps falls rows.now self.now after) }
    {
        let progress = self.progress.advanced(falls, rows)?;
        let n = self.progress.n;
        let sets = backers(n, &self.estimates);
        let round = Round {
            n,
            complete: progress.running,
            rows,
            backers: &sets,
        };
        let estimates = array_of(|c| round.estimate(&self.estimates, c));
        let verdicts = array_of(|c| round.verdict(&self.verdicts, c));
        Ok(Third {
            progress,
            estimates,
            verdicts,
        })
    }
}

impl BackEnd for Third {
    const BOUND: u32 = 1;

    ghost BOUND = { 1 };

    ghost serves = { third_serves };

    ghost meaning = { third_meaning };

    ghost Begins = { Opens };

    ghost GoesOn = { Steps };

    ghost agrees = { λ b. Keeps.agrees (third_meaning b) b.estimates b.keeps };

    ghost settles = { λ b. b.keeps.settled };

    fn make(n: u8, t: u8) -> Result<Third, Refusal> {
        let progress = Progress::make(n, t, is_served(n, t))?;
        let estimates = progress.entries;
        Ok(Third {
            progress,
            estimates,
            verdicts: [0; MAX_CONSOLES],
        })
    }

    fn start(&mut self, running: ConsoleSet, entries: &[u8]) -> Result<(), Refusal> {
        *self = self.started(running, entries)?;
        Ok(())
    }

    fn round(&mut self, falls: ConsoleSet, rows: &[ConsoleSet]) -> Result<(), Refusal> {
        *self = self.advanced(falls, rows)?;
        Ok(())
    }

    fn verdict(&self, console: u8) -> Result<u8, Refusal> {
        check_console(self.progress.n, console)?;
        Ok(self.verdicts[console as usize - 1])
    }

    fn steady(&self) -> u32 {
        self.progress.steady
    }
}

// Whether 3t is below n. Each back end says its own bound on t; one function with the factor as a parameter is no shorter.
fn is_served(n: u8, t: u8) -> bool
    ensures { result ≡ third_serves n t }
{
    3 * (t as u16) < n as u16
}
