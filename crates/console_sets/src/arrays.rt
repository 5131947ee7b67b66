// Arrays with one item for each console.
ghost use Rattle.std.specs.Prelude.{◌≡◌, ℕ, ◌<◌, ◌≤◌, slice_index_or};
ghost use Rattle.console_sets.specs.Calls.{Computes};
ghost use Rattle.console_sets.specs.Bound.{max_consoles};

use crate::MAX_CONSOLES;
use std::array;

// What the closure gives at each console's index. A read beyond the end gives what it is told to give there.
pub fn array_of<T, F: Fn(u8) -> T>(item: F) -> [T; MAX_CONSOLES]
    requires { (c : ℕ) → c < max_consoles → F.pre item c }
    ensures below { (f : ℕ → T) → Computes max_consoles (F.post item) f → (blank : T) (c : ℕ) → c < max_consoles → slice_index_or result c blank ≡ f c }
    ensures beyond { (blank : T) (c : ℕ) → max_consoles ≤ c → slice_index_or result c blank ≡ blank }
{
    array::from_fn(|c| item(c as u8))
}
