// Sets of consoles, each as one unsigned number.
#![tactic(auto)]

mod arrays;
mod members;
mod searches;
#[cfg(test)]
mod tests;
mod theorems;

pub use arrays::array_of;
pub use members::{all_of, difference, has, is_within, lowest_member, size, union, with};
pub use searches::{count_of, lowest_of, set_of};
pub use theorems::{laws_of_counts, laws_of_members};

// A set of consoles. The console c + 1 has the index c, and is the bit worth 2 to the power c.
pub type ConsoleSet = u16;

// What consoles have stands in arrays of this length: a `Vec` would allocate, and no call of the libraries does.
// The most consoles that there are, one for each bit of a set. `specs/Bound` says the number again, so that another one here
// is refused.
pub const MAX_CONSOLES: usize = 16;
