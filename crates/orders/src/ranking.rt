// The ranks of the consoles that take part, by who precedes whom.
ghost use Rattle.std.specs.Prelude.{◌≡◌, ℕ, ◌<◌, length, slice_index};
ghost use Rattle.orders.specs.Ranks.{between, precedes, takes_part, rank};
ghost use Rattle.orders.specs.Laws.{Ranking, Unread};

use crate::Order;
use console_sets::{ConsoleSet, MAX_CONSOLES, array_of, count_of, has};

// Whether the console of index c runs and has a proposal.
fn takes_part<P>(proposals: &[P], running: ConsoleSet, c: u8) -> bool
    ensures { result ≡ takes_part (length proposals.now) running c }
{
    (c as usize) < proposals.len() && has(running, c)
}

// Whether author a precedes author b: by their proposals, or by their numbers where those are the same.
fn precedes<P: Order>(proposals: &[P], a: u8, b: u8) -> bool
    requires { (a < length proposals.now) × (b < length proposals.now) }
    ensures { result ≡ precedes (between P.places proposals.now) a b }
{
    let place = proposals[a as usize].compare(&proposals[b as usize]);
    place.then(a.cmp(&b)).is_lt()
}

// How many of those that take part precede the author, or 0 if the author does not.
fn rank_of<P: Order>(proposals: &[P], running: ConsoleSet, author: u8) -> u8
    ensures { result ≡ rank (length proposals.now) running (between P.places proposals.now) author }
{
    count_of(MAX_CONSOLES as u8, |c| {
        takes_part(proposals, running, author)
            && takes_part(proposals, running, c)
            && precedes(proposals, c, author)
    })
}

// The rank of each running console that has a proposal, by index: how many of them precede it. The others have 0.
pub fn ranks<P: Order>(proposals: &[P], running: ConsoleSet) -> [u8; MAX_CONSOLES]
    ensures each { (c : ℕ) → slice_index result c ≡ rank (length proposals.now) running (between P.places proposals.now) c }
    ensures order { Ranking (length proposals.now) running (between P.places proposals.now) (λ c. slice_index result c) }
    ensures unread { Unread P.places proposals.now running (λ c. slice_index result c) }
{
    array_of(|author| rank_of(proposals, running, author))
}
