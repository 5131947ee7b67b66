// The rules of a round for a console without a verdict.
ghost use Rattle.std.specs.Prelude.{◌≡◌};
ghost use Rattle.leader.specs.Rule.{who, next_leader, ruled};
ghost use Rattle.leader.specs.Shown.{takes};

use crate::console::{Console, Kind};
use crate::heard::Heard;
use crate::shows::{Origin, Shows};
use console_sets::{ConsoleSet, lowest_member};

// The console after round k: the first rule that fits its kind and what its row shows.
pub fn ruled_by(k: u32, own: Console, heard: &Heard<'_>) -> Console
    ensures { result ≡ ruled heard.now.n k heard.now.row (who heard.now.consoles.now) own }
{
    match (own.kind, Shows::of(heard)) {
        (_, Shows::Verdict(verdict)) => Console { verdict, ..own },
        (Kind::Commit, Shows::Commits(_)) => Console {
            verdict: own.estimate,
            ..own
        },
        (Kind::Prepare, Shows::Commits(origin)) | (_, Shows::Neither(origin)) => {
            taken(k, next_leader(heard.row), origin)
        }
    }
}

// A console that takes its estimate from there and names this leader.
fn taken(k: u32, leader: u8, origin: Origin) -> Console
    ensures { result ≡ takes k leader origin }
{
    match origin {
        Origin::Leader(from) => Console {
            estimate: from.estimate,
            stamp: k,
            kind: Kind::Commit,
            leader,
            verdict: 0,
        },
        Origin::Latest(from) => Console {
            estimate: from.estimate,
            stamp: from.stamp,
            kind: Kind::Prepare,
            leader,
            verdict: 0,
        },
    }
}

// The leader that it names then: the lowest console in the row, or 0 for an empty one.
#[tactic(auto, unfolding(crate::specs::Rule::next_leader))]
fn next_leader(row: ConsoleSet) -> u8
    ensures { result ≡ next_leader row }
{
    lowest_member(row).unwrap_or(0)
}
