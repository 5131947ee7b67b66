// Sets of consoles by their members. A console is given by its index c, which stands for the console c + 1.
ghost use Rattle.std.specs.Prelude.{◌≡◌, min, if◌then◌else◌, nat_lt};
ghost use Rattle.console_sets.specs.Sets.{console_of, member, inside, all, union, without, joined, count, lowest};
ghost use Rattle.console_sets.specs.Bound.{max_consoles};

use crate::searches::lowest_of;
use crate::{ConsoleSet, MAX_CONSOLES};

// Whether the console of index c is a member. Beyond MAX_CONSOLES none is.
pub fn has(s: ConsoleSet, c: u8) -> bool
    ensures { result ≡ member s c }
{
    (c as usize) < MAX_CONSOLES && (s >> c) & 1 == 1
}

// The set of the consoles 1 to n, or of all that there are if n is larger.
pub fn all_of(n: u8) -> ConsoleSet
    ensures { result ≡ all (min n max_consoles) }
{
    if (n as usize) < MAX_CONSOLES {
        (1 << n) - 1
    } else {
        ConsoleSet::MAX
    }
}

// The number of the lowest member, if there is one.
pub fn lowest_member(s: ConsoleSet) -> Option<u8>
    ensures { result ≡ console_of (lowest (member s) max_consoles) }
{
    lowest_of(MAX_CONSOLES as u8, |c| has(s, c))
}

// How many members there are.
pub fn size(s: ConsoleSet) -> u8
    ensures { result ≡ count (member s) max_consoles }
{
    s.count_ones() as u8
}

// The members of either set.
pub fn union(a: ConsoleSet, b: ConsoleSet) -> ConsoleSet
    ensures { result ≡ union a b }
{
    a | b
}

// The members of a that are not members of b.
pub fn difference(a: ConsoleSet, b: ConsoleSet) -> ConsoleSet
    ensures { result ≡ without a b }
{
    a & !b
}

// Whether every member of a is a member of b.
pub fn is_within(a: ConsoleSet, b: ConsoleSet) -> bool
    ensures { result ≡ inside a b }
{
    a & b == a
}

// The set with the console of index c as one more member. Beyond MAX_CONSOLES there is none to add.
pub fn with(s: ConsoleSet, c: u8) -> ConsoleSet
    ensures { result ≡ (if nat_lt c max_consoles then joined s c else s) }
{
    if (c as usize) < MAX_CONSOLES {
        s | (1 << c)
    } else {
        s
    }
}
