// The page of a closed press.
use console_sets::MAX_CONSOLES;
use front::Console;

// How a press ended.
#[derive(Clone, Copy, PartialEq, Eq, Debug)]
pub enum End {
    // Every running console had a decision.
    Settled,
    // One had none.
    Dropped,
}

#[derive(Clone, Copy)]
pub struct Page {
    pub press: u32,
    pub end: End,
    // The accepted rounds.
    pub rounds: u32,
    pub consoles: [Console; MAX_CONSOLES],
}
