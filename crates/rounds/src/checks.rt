// The checks that calls meet, each refusing with the first number that fits, and whether a round is steady.
// n, t, the running set and the rounds done are parameters: a struct of them would stand within `Panel` and `Progress`, and
// every definition of a rig would read `panel.group.running` for `panel.running`.
ghost use Rattle.std.specs.Prelude.{◌≡◌};
ghost use Rattle.rounds.specs.Refusals.{answer};
ghost use Rattle.rounds.specs.Rounds.{steady_round};
ghost use Rattle.rounds.specs.Checks.{size_refusal, make_refusal, start_refusal, round_refusal, console_refusal};

use crate::faults::{is_bad_entry, is_bad_row, is_short_row, is_uneven_row};
use crate::refusals::Refusal;
use crate::sets::{is_known, is_quorum};
use crate::{MAX_ROUNDS, MIN_CONSOLES};
use console_sets::{ConsoleSet, MAX_CONSOLES, difference, is_within, lowest_of};

// Whether a group can have n consoles of which t may fall: 1, 2.
pub fn check_size(n: u8, t: u8) -> Result<(), Refusal>
    ensures { result ≡ answer (size_refusal n t) }
{
    if (n < MIN_CONSOLES) | (MAX_CONSOLES < n as usize) {
        return Err(Refusal::Consoles);
    }
    if (t == 0) | (n as u16 <= 2 * t as u16) {
        return Err(Refusal::Tolerance);
    }
    Ok(())
}

// Whether a back end can be made, given whether it serves n and t: 1, 2, 3.
pub fn check_make(n: u8, t: u8, serves: bool) -> Result<(), Refusal>
    ensures { result ≡ answer (make_refusal serves n t) }
{
    check_size(n, t)?;
    if serves {
        Ok(())
    } else {
        Err(Refusal::NotServed)
    }
}

// Whether a back end for n and t can start with these: 9, 10, 11, 12.
pub fn check_start(n: u8, t: u8, running: ConsoleSet, entries: &[u8]) -> Result<(), Refusal>
    ensures { result ≡ answer (start_refusal n t running entries.now) }
{
    if entries.len() != n as usize {
        return Err(Refusal::ItemCount);
    }
    if !is_known(n, running) {
        return Err(Refusal::OutsideMember);
    }
    if !is_quorum(n, t, running) {
        return Err(Refusal::TooFewRunning);
    }
    if let Some(console) = lowest_of(n, |c| is_bad_entry(n, running, entries, c)) {
        return Err(Refusal::BadItem { console });
    }
    Ok(())
}

// Whether a round can follow `rounds` others: 8, 9, 10, 11, 12, 13.
pub fn check_round(
    n: u8,
    t: u8,
    running: ConsoleSet,
    rounds: u32,
    falls: ConsoleSet,
    rows: &[ConsoleSet],
) -> Result<(), Refusal>
    ensures { result ≡ answer (round_refusal n t running rounds falls rows.now) }
{
    if MAX_ROUNDS <= rounds {
        return Err(Refusal::RoundLimit);
    }
    if rows.len() != n as usize {
        return Err(Refusal::ItemCount);
    }
    if !is_within(falls, running) {
        return Err(Refusal::OutsideMember);
    }
    if !is_quorum(n, t, difference(running, falls)) {
        return Err(Refusal::TooFewRunning);
    }
    if let Some(console) = lowest_of(n, |c| is_bad_row(running, falls, rows, c)) {
        return Err(Refusal::BadItem { console });
    }
    if let Some(console) = lowest_of(n, |c| is_short_row(n, t, running, falls, rows, c)) {
        return Err(Refusal::ShortRow { console });
    }
    Ok(())
}

// Whether there is a console of this number: 14.
pub fn check_console(n: u8, console: u8) -> Result<(), Refusal>
    ensures { result ≡ answer (console_refusal n console) }
{
    if (console == 0) | (n < console) {
        return Err(Refusal::NoSuch);
    }
    Ok(())
}

// Whether nobody falls in a round, and the row of each running console is the running set.
pub fn is_steady(n: u8, running: ConsoleSet, falls: ConsoleSet, rows: &[ConsoleSet]) -> bool
    ensures { result ≡ steady_round n running falls rows.now }
{
    (falls == 0) & lowest_of(n, |c| is_uneven_row(running, rows, c)).is_none()
}
