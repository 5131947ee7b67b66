// The ticket of an open press, and calls as values.
use console_sets::ConsoleSet;

// A ticket is not dropped: it ends in a close.
pub struct Ticket {
    pub(crate) rig: u16,
    pub(crate) press: u32,
}

// What is asked of a rig, with the numbers of the ticket that is shown. They are two plain numbers: a struct of them, which
// can be copied, would be a second kind of ticket.
#[derive(Drop)]
pub enum Call<'a, P> {
    Press(&'a [P]),
    Round {
        rig: u16,
        press: u32,
        falls: ConsoleSet,
        rows: &'a [ConsoleSet],
    },
    Close {
        rig: u16,
        press: u32,
    },
}
