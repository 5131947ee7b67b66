// The back end Leader: a verdict is an estimate that more than half of all consoles committed to in one round.
#![tactic(auto)]

mod calls;
mod console;
mod heard;
mod rules;
mod shows;
mod state;
mod steps;
#[cfg(test)]
mod tests;

pub use state::Leader;
