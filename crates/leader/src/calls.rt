// Leader as a back end.
ghost use Rattle.std.specs.Prelude.{◌≡◌};
ghost use Rattle.rounds.specs.Refusals.{Answers};
ghost use Rattle.back_end.specs.Calls.{start_refused, round_refused, Started, Rounded};
ghost use Rattle.leader.specs.Rule.{leader_serves};
ghost use Rattle.leader.specs.Means.{leader_meaning, Opens, Steps};
ghost use Rattle.leader.specs.Agreement.{leader_agrees, leader_settles};

use crate::console::console_at;
use crate::state::Leader;
use crate::steps::{next_consoles, opened};
use back_end::{BackEnd, Progress};
use console_sets::ConsoleSet;
use rounds::{Refusal, check_console};

// Whether 2t is below n. Each back end says its own bound on t; one function with the factor as a parameter is no shorter.
fn is_served(n: u8, t: u8) -> bool
    ensures { result ≡ leader_serves n t }
{
    2 * (t as u16) < n as u16
}

impl Leader {
    // A Leader after a start. Ends as `make` does; a function for both would have to ask of a progress what every Leader keeps.
    fn started(&self, running: ConsoleSet, entries: &[u8]) -> Result<Leader, Refusal>
        ensures { Answers result (start_refused (leader_meaning self.now) running entries.now) (λ after. Started running entries.now (leader_meaning self.now) (leader_meaning after) × Opens after) }
    {
        let progress = self.progress.started(running, entries)?;
        let consoles = opened(&progress.entries);
        Ok(Leader { progress, consoles })
    }

    // One after a round.
    fn advanced(&self, falls: ConsoleSet, rows: &[ConsoleSet]) -> Result<Leader, Refusal>
        ensures { Answers result (round_refused (leader_meaning self.now) falls rows.now) (λ after. Rounded falls rows.now (leader_meaning self.now) (leader_meaning after) × Steps falls rows.now self.now after) }
    {
        let progress = self.progress.advanced(falls, rows)?;
        let consoles = next_consoles(progress, rows, &self.consoles);
        Ok(Leader { progress, consoles })
    }
}

impl BackEnd for Leader {
    const BOUND: u32 = 2;

    ghost BOUND = { 2 };

    ghost serves = { leader_serves };

    ghost meaning = { leader_meaning };

    ghost Begins = { Opens };

    ghost GoesOn = { Steps };

    ghost agrees = { leader_agrees };

    ghost settles = { leader_settles };

    fn make(n: u8, t: u8) -> Result<Leader, Refusal> {
        let progress = Progress::make(n, t, is_served(n, t))?;
        Ok(Leader {
            progress,
            consoles: opened(&progress.entries),
        })
    }

    fn start(&mut self, running: ConsoleSet, entries: &[u8]) -> Result<(), Refusal> {
        *self = self.started(running, entries)?;
        Ok(())
    }

    fn round(&mut self, falls: ConsoleSet, rows: &[ConsoleSet]) -> Result<(), Refusal> {
        *self = self.advanced(falls, rows)?;
        Ok(())
    }

    fn verdict(&self, console: u8) -> Result<u8, Refusal> {
        check_console(self.progress.n, console)?;
        Ok(console_at(&self.consoles, console - 1).verdict)
    }

    fn steady(&self) -> u32 {
        self.progress.steady
    }
}
