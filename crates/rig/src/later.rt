// Rounds after t + 2: what relay and the back end's verdicts give, and whether every running console has a decision.
ghost use Rattle.std.specs.Prelude.{◌≡◌, ℕ};
ghost use Rattle.rounds.specs.Items.{at};
ghost use Rattle.front.specs.Consoles.{state_of};
ghost use Rattle.rig.specs.Later.{decided, tells, later, after_later, lacks, all_decided};

use console_sets::{ConsoleSet, MAX_CONSOLES, array_of, has, lowest_of};
use front::{Cause, Console, console_at};
use rounds::item_or;

// What each console has after round k. Who does not complete it keeps what it has. The front has the like for its own rounds
// only, so that another front can stand in its place.
pub(crate) fn after_later(
    n: u8,
    k: u32,
    completing: ConsoleSet,
    rows: &[ConsoleSet],
    verdicts: &[u8; MAX_CONSOLES],
    consoles: &[Console; MAX_CONSOLES],
) -> [Console; MAX_CONSOLES]
    ensures { (c : ℕ) → state_of result c ≡ after_later n k completing rows.now (at verdicts.now) (state_of consoles.now) c }
{
    array_of(|c| {
        if has(completing, c) {
            let row = item_or(rows, c, 0);
            later(n, k, row, item_or(verdicts, c, 0), consoles, c)
        } else {
            console_at(consoles, c)
        }
    })
}

// Whether every running console up to n has a decision.
pub(crate) fn all_decided(n: u8, running: ConsoleSet, consoles: &[Console; MAX_CONSOLES]) -> bool
    ensures { result ≡ all_decided n running (state_of consoles.now) }
{
    lowest_of(n, |c| lacks(running, consoles, c)).is_none()
}

// What the console of index i has after a round that it completes: its decision, or that of the lowest console that it
// heard with one, or else its verdict.
fn later(
    n: u8,
    k: u32,
    row: ConsoleSet,
    verdict: u8,
    consoles: &[Console; MAX_CONSOLES],
    i: u8,
) -> Console
    ensures { result ≡ later n k row verdict (state_of consoles.now) i }
{
    let had = console_at(consoles, i);
    if had.decision != 0 {
        return had;
    }
    match (lowest_of(n, |j| tells(row, consoles, j)), verdict) {
        (Some(number), _) => {
            let told = console_at(consoles, number - 1).decision;
            decided(had, told, k, Cause::Relay)
        }
        (None, 0) => had,
        (None, author) => decided(had, author, k, Cause::Back),
    }
}

// A console with a decision of round k.
fn decided(console: Console, author: u8, k: u32, cause: Cause) -> Console
    ensures { result ≡ decided console author k cause }
{
    Console {
        decision: author,
        round: k,
        cause,
        ..console
    }
}

// Whether the console of index j is in the row and had a decision at the round's start.
fn tells(row: ConsoleSet, consoles: &[Console; MAX_CONSOLES], j: u8) -> bool
    ensures { result ≡ tells row (state_of consoles.now) j }
{
    has(row, j) & (console_at(consoles, j).decision != 0)
}

// Whether the console of index c runs and has no decision.
fn lacks(running: ConsoleSet, consoles: &[Console; MAX_CONSOLES], c: u8) -> bool
    ensures { result ≡ lacks running (state_of consoles.now) c }
{
    has(running, c) & (console_at(consoles, c).decision == 0)
}
