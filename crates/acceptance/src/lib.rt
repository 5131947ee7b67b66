// Whole shows, played on the back ends that are built.
#![tactic(auto)]

mod client;
mod lent;
#[cfg(test)]
mod tests;
