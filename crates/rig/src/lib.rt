// One rig: set up, press, round, close, pages and tickets.
#![tactic(auto)]

mod advancing;
mod back;
mod calls;
mod closing;
mod later;
mod opening;
mod page;
mod panel;
mod performing;
mod reading;
mod rig;

pub use calls::{Call, Ticket};
pub use page::{End, Page};
pub use performing::whole_show;
pub use rig::Rig;
