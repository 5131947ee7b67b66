// A schedule taken apart: its lines, their kinds, and what their fields say.
#![tactic(auto)]

mod field;
mod fields;
mod line;
mod numbers;
mod parts;
mod read;
mod refusal;
mod said;
mod said_lines;
#[cfg(test)]
mod tests;
mod theorems;

pub use fields::Fields;
pub use line::{Line, next_line, take_apart};
pub use read::{Reading, Stage};
pub use refusal::FileRefusal;
pub use said::{BackEndKind, ProposalKind, Proposals, RigLine, RoundLine, Said};
pub use theorems::one_text_for_each_value;
