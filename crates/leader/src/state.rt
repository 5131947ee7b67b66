// The state of Leader, with what every value of it keeps.
ghost use Rattle.leader.specs.Rule.{who};
ghost use Rattle.leader.specs.State.{Keeps};

use crate::console::Console;
use back_end::Progress;
use console_sets::MAX_CONSOLES;

// The back end Leader. Console c is at the index c - 1.
#[derive(Drop)]
pub struct Leader {
    pub(crate) progress: Progress,
    pub(crate) consoles: [Console; MAX_CONSOLES],
    ghost keeps: { Keeps progress.n progress.t progress.running progress.rounds progress.steady progress.entries (who consoles) },
}
