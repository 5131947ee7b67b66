// The lines of a sheet, and how they go into a buffer.
#![tactic(auto)]

mod authors;
mod lines;
mod numbers;
mod printer;
#[cfg(test)]
mod tests;
mod text;
mod waiting;

pub use lines::{end_line, refused_line};
pub use printer::{NoRoom, print, print_page};
pub use text::Text;
pub use waiting::wait;
