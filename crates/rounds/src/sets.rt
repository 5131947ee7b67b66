// What n and t ask of a set.
ghost use Rattle.std.specs.Prelude.{◌≡◌};
ghost use Rattle.console_sets.specs.Sets.{inside, all};
ghost use Rattle.rounds.specs.Rounds.{quorum};

use console_sets::{ConsoleSet, all_of, is_within, size};

// Whether every member is one of the consoles 1 to n.
pub fn is_known(n: u8, set: ConsoleSet) -> bool
    ensures { result ≡ inside set (all n) }
{
    is_within(set, all_of(n))
}

// Whether the set has at least n - t members.
pub fn is_quorum(n: u8, t: u8, set: ConsoleSet) -> bool
    ensures { result ≡ quorum n t set }
{
    n.saturating_sub(t) <= size(set)
}
