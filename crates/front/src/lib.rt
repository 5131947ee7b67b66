// The front of a press, rounds 1 to t + 2: what each console has after each of them, and what it hands to a back end.
#![tactic(auto)]

mod consoles;
mod deciding;
mod halting;
mod hearing;
mod precedence;
#[cfg(test)]
mod tests;
mod theorems;

pub use consoles::{Cause, Console, console_at, opening_consoles};
pub use deciding::{after_deciding, entries};
pub use halting::after_halting;
pub use theorems::elimination;
