// Back ends: the interface that every one keeps, and what those that are built have in common.
#![tactic(auto)]

mod calls;
mod interface;
mod largest;
mod progress;
mod settled;
#[cfg(test)]
mod tests;
mod votes;

pub use interface::BackEnd;
pub use largest::largest_of;
pub use progress::Progress;
pub use settled::is_settled;
pub use votes::{backers, votes_of};
