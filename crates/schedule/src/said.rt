// What the lines of a schedule say.
use console_sets::{ConsoleSet, MAX_CONSOLES};
use orders::{Cue, FirstPress};

#[derive(Clone, Copy, PartialEq, Eq, Debug)]
pub enum ProposalKind {
    Cue,
    First,
}

#[derive(Clone, Copy, PartialEq, Eq, Debug)]
pub enum BackEndKind {
    Leader,
    Third,
}

// n consoles of which at most t fall; round_length is in microseconds.
#[derive(Clone, Copy)]
pub struct RigLine {
    pub n: u8,
    pub t: u8,
    pub proposals: ProposalKind,
    pub back_end: BackEndKind,
    pub round_length: u32,
}

// A proposal for each console, a blank one for those that have fallen and beyond the last.
#[derive(Clone, Copy)]
pub enum Proposals {
    Cues([Cue; MAX_CONSOLES]),
    FirstPresses([FirstPress; MAX_CONSOLES]),
}

// The consoles that fall, and whom each console heard; no one beyond the last.
#[derive(Clone, Copy)]
pub struct RoundLine {
    pub falls: ConsoleSet,
    pub rows: [ConsoleSet; MAX_CONSOLES],
}

#[derive(Clone, Copy)]
pub enum Said {
    Rig(RigLine),
    Press(Proposals),
    Round(RoundLine),
    Close,
}
