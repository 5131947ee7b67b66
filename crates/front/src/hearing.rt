// What a console hears in a round, and which of the new estimates of round t + 2 are missing.
ghost use Rattle.std.specs.Prelude.{◌≡◌, true, false, MatchOption};
ghost use Rattle.console_sets.specs.Sets.{member};
ghost use Rattle.rounds.specs.Items.{at};
ghost use Rattle.front.specs.Consoles.{state_of};
ghost use Rattle.front.specs.Deciding.{new_estimate, hears_missing, hears_present};

use crate::consoles::{Console, console_at};
use console_sets::{ConsoleSet, MAX_CONSOLES, has, size};
use rounds::item_or;

// What a console hears in a round: its row, and what all had at the round's start.
#[derive(Clone, Copy)]
pub(crate) struct Heard<'a> {
    pub(crate) row: ConsoleSet,
    pub(crate) consoles: &'a [Console; MAX_CONSOLES],
}

impl<'a> Heard<'a> {
    // What the console of index c hears in a round, if it completes it.
    pub(crate) fn by(
        completing: ConsoleSet,
        rows: &[ConsoleSet],
        consoles: &'a [Console; MAX_CONSOLES],
        c: u8,
    ) -> Option<Heard<'a>>
        ensures { MatchOption result (member completing c ≡ false) (λ heard. (member completing c ≡ true) × (heard.row ≡ at rows.now c) × (heard.consoles.now ≡ consoles.now)) }
    {
        has(completing, c).then(|| Heard {
            row: item_or(rows, c, 0),
            consoles,
        })
    }
}

impl Heard<'_> {
    // Whether it hears the console of index j, whose new estimate is missing.
    pub(crate) fn hears_missing(&self, t: u8, j: u8) -> bool
        ensures { result ≡ hears_missing t self.now.row (state_of self.now.consoles.now) j }
    {
        has(self.row, j) && console_at(self.consoles, j).new_estimate(t).is_none()
    }

    // Whether it hears the console of index j, whose new estimate is present.
    pub(crate) fn hears_present(&self, t: u8, j: u8) -> bool
        ensures { result ≡ hears_present t self.now.row (state_of self.now.consoles.now) j }
    {
        has(self.row, j) && console_at(self.consoles, j).new_estimate(t).is_some()
    }
}

impl Console {
    // The estimate, unless the halt set has more than t members.
    fn new_estimate(self, t: u8) -> Option<u8>
        ensures { result ≡ new_estimate t self }
    {
        (size(self.halt) <= t).then_some(self.estimate)
    }
}
