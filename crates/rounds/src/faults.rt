// The faults that checks look for, console by console.
ghost use Rattle.std.specs.Prelude.{◌≡◌};
ghost use Rattle.rounds.specs.Rounds.{bad_entry, bad_row, short_row, uneven_row};

use crate::items::item_or;
use crate::sets::is_quorum;
use console_sets::{ConsoleSet, difference, has, is_within};

// Whether the console of index c runs and its entry is not a console's number.
pub fn is_bad_entry(n: u8, running: ConsoleSet, entries: &[u8], c: u8) -> bool
    ensures { result ≡ bad_entry n running entries.now c }
{
    let entry = item_or(entries, c, 0);
    has(running, c) & ((entry == 0) | (n < entry))
}

// Whether its row is one that it cannot have.
pub fn is_bad_row(running: ConsoleSet, falls: ConsoleSet, rows: &[ConsoleSet], c: u8) -> bool
    ensures { result ≡ bad_row running falls rows.now c }
{
    let row = item_or(rows, c, 0);
    if has(difference(running, falls), c) {
        !(has(row, c) & is_within(row, running))
    } else {
        row != 0
    }
}

// Whether it completes the round with a row that is no quorum.
pub fn is_short_row(
    n: u8,
    t: u8,
    running: ConsoleSet,
    falls: ConsoleSet,
    rows: &[ConsoleSet],
    c: u8,
) -> bool
    ensures { result ≡ short_row n t running falls rows.now c }
{
    has(difference(running, falls), c) & !is_quorum(n, t, item_or(rows, c, 0))
}

// Whether it runs and its row is not the running set.
pub fn is_uneven_row(running: ConsoleSet, rows: &[ConsoleSet], c: u8) -> bool
    ensures { result ≡ uneven_row running rows.now c }
{
    has(running, c) & (item_or(rows, c, 0) != running)
}
