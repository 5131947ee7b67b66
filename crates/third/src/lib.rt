// The back end Third: a verdict is an estimate that more than two thirds of all consoles have.
#![tactic(auto)]

mod calls;
mod polls;
mod state;
mod steps;
#[cfg(test)]
mod tests;

pub use state::Third;
