// What is found out by trying one console after the other.
// A `for` each: chains (`position`, and `filter` with `count` or `fold`) were tried, and their proofs did not close.
ghost use Rattle.std.specs.Prelude.{◌≡◌, ℕ, ◌<◌, ◌≤◌, min, Bool, IfSome};
ghost use Rattle.console_sets.specs.Sets.{console_of, count, lowest, set_of};
ghost use Rattle.console_sets.specs.Calls.{Computes};
ghost use Rattle.console_sets.specs.Bound.{max_consoles};

use crate::members::with;
use crate::{ConsoleSet, MAX_CONSOLES};

// The number of the lowest console up to n whose index passes the test, if one does.
pub fn lowest_of<T: Fn(u8) -> bool>(n: u8, test: T) -> Option<u8>
    requires { (c : ℕ) → c < n → T.pre test c }
    ensures lowest { (p : ℕ → Bool) → Computes n (T.post test) p → result ≡ console_of (lowest p n) }
    ensures within { IfSome result (λ number. (0 < number) × (number ≤ n)) }
{
    for c in 0..n {
        if test(c) {
            return Some(c + 1);
        }
    }
    None
}

// How many of the consoles up to n pass the test.
pub fn count_of<T: Fn(u8) -> bool>(n: u8, test: T) -> u8
    requires { (c : ℕ) → c < n → T.pre test c }
    ensures { (p : ℕ → Bool) → Computes n (T.post test) p → result ≡ count p n }
{
    let mut number = 0;
    for c in 0..n {
        if test(c) {
            number += 1;
        }
    }
    number
}

// The set of exactly those consoles up to n that pass the test. Beyond MAX_CONSOLES there are none.
pub fn set_of<T: Fn(u8) -> bool>(n: u8, test: T) -> ConsoleSet
    requires { (c : ℕ) → c < min n max_consoles → T.pre test c }
    ensures { (p : ℕ → Bool) → Computes (min n max_consoles) (T.post test) p → result ≡ set_of p (min n max_consoles) }
{
    let mut set = 0;
    for c in 0..n.min(MAX_CONSOLES as u8) {
        if test(c) {
            set = with(set, c);
        }
    }
    set
}
