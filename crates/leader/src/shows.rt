// What a row shows a console.
ghost use Rattle.std.specs.Prelude.{◌≡◌};
ghost use Rattle.leader.specs.Rule.{who};
ghost use Rattle.leader.specs.Shown.{origin, shown};

use crate::console::{Console, console_at};
use crate::heard::{Heard, is_majority};
use console_sets::count_of;

// From whom a console takes its estimate.
#[derive(Clone, Copy)]
pub enum Origin {
    // The leader that more than n/2 consoles in the row name, if it is there and none there has a higher stamp.
    Leader(Console),
    // Without such a leader, the lowest console with the highest stamp in the row.
    Latest(Console),
}

// The first of these that holds.
#[derive(Clone, Copy)]
pub enum Shows {
    // A console in the row has a verdict: that of the lowest such console.
    Verdict(u8),
    // More than n/2 consoles in the row have kind commit.
    Commits(Origin),
    Neither(Origin),
}

impl Shows {
    pub fn of(heard: &Heard<'_>) -> Shows
        ensures { result ≡ shown heard.now.n heard.now.row (who heard.now.consoles.now) }
    {
        if let Some(verdict) = heard.verdict() {
            return Shows::Verdict(verdict);
        }
        let origin = Origin::of(heard);
        let commits = count_of(heard.n, |c| heard.is_committed(c)) as u32;
        if is_majority(heard.n, commits) {
            Shows::Commits(origin)
        } else {
            Shows::Neither(origin)
        }
    }
}

impl Origin {
    fn of(heard: &Heard<'_>) -> Origin
        ensures { result ≡ origin heard.now.n heard.now.row (who heard.now.consoles.now) }
    {
        let highest = heard.peak();
        if let Some(leader) = heard.lowest(|c| heard.leads(highest, c)) {
            return Origin::Leader(leader);
        }
        match heard.lowest(|c| heard.tops(highest, c)) {
            Some(latest) => Origin::Latest(latest),
            // Only where nobody is in the row, not even the console itself.
            None => Origin::Latest(console_at(heard.consoles, 0)),
        }
    }
}
