// What a start and a round leave of the consoles.
ghost use Rattle.leader.specs.Namers.{Tells};
ghost use Rattle.leader.specs.Rule.{who, Opened, LeaderRound};

use crate::console::{Console, console_at};
use crate::heard::Heard;
use crate::rules::ruled_by;
use back_end::{Progress, backers};
use console_sets::{ConsoleSet, MAX_CONSOLES, array_of, has};
use rounds::item_or;

// The consoles as a start with these entries leaves them.
pub fn opened(entries: &[u8; MAX_CONSOLES]) -> [Console; MAX_CONSOLES]
    ensures { Opened entries.now result }
{
    array_of(|c| Console::opening(item_or(entries, c, 0)))
}

// The consoles after the round that leaves this progress, so that its running set has completed it.
pub fn next_consoles(
    progress: Progress,
    rows: &[ConsoleSet],
    consoles: &[Console; MAX_CONSOLES],
) -> [Console; MAX_CONSOLES]
    ensures { LeaderRound progress.n progress.rounds progress.running rows.now consoles.now result }
{
    let leaders = array_of(|c| console_at(consoles, c).leader);
    let namers = backers(progress.n, &leaders);
    // What becomes of the console at the index c.
    let next = |c|
        requires { Tells progress.n (who consoles.now) namers }
    {
        let own = console_at(consoles, c);
        if !has(progress.running, c) || own.verdict != 0 {
            return own;
        }
        let heard = Heard {
            n: progress.n,
            row: item_or(rows, c, 0),
            consoles,
            namers: &namers,
        };
        ruled_by(progress.rounds, own, &heard)
    };
    array_of(next)
}
