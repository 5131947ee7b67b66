// Orders of proposals, and the ranks of the consoles that make them.
#![tactic(auto)]

ghost use Rattle.std.specs.Prelude.{◌≡◌};
ghost use Rattle.std.specs.declared.cmp.Ordering.{Ordering};
ghost use Rattle.std.specs.declared.cmp.Ordering.TheVariants.{Less, Equal};
ghost use Rattle.std.specs.Ordering.{ordering_reverse};

use std::cmp::Ordering;

mod proposals;
mod ranking;
#[cfg(test)]
mod tests;

pub use proposals::{Cue, FirstPress};
pub use ranking::ranks;

// An order of proposals. Of two it says that the one is before the other (`Less`), the same (`Equal`) or after it
// (`Greater`); the answer rests on the two alone.
pub trait Order: Sized {
    ghost places: { Self → Self → Ordering };

    fn compare(&self, other: &Self) -> Ordering
        ensures { result ≡ places self.now other.now };

    // One is before the other exactly when the other is after the one.
    ghost mirrored: { (a b : Self) → places a b ≡ ordering_reverse (places b a) };

    // What is before one that is before a third is before the third.
    ghost onward: { (a b c : Self) → places a b ≡ Less → places b c ≡ Less → places a c ≡ Less };

    // Two that are the same compare alike with every third.
    ghost alike: { (a b c : Self) → places a b ≡ Equal → places a c ≡ places b c };
}
