// What a rig and its back ends share: why a call is refused, what a round is, and the checks that calls meet.
#![tactic(auto)]

mod checks;
mod faults;
mod items;
mod refusals;
mod sets;
#[cfg(test)]
mod tests;
mod theorems;

pub use checks::{check_console, check_make, check_round, check_size, check_start, is_steady};
pub use items::{is_author, item_or};
pub use refusals::{Layer, Refusal};
pub use theorems::{laws_of_checks, laws_of_rounds};

// The fewest consoles that a group has; console_sets::MAX_CONSOLES is the most. `specs/Bound` says these numbers again, so that
// others here are refused.
pub const MIN_CONSOLES: u8 = 3;

// The most rounds of one press, and of a back end since its start.
pub const MAX_ROUNDS: u32 = 1_000;
