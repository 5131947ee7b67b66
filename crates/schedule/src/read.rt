// A line of a schedule read where it stands.
ghost use Rattle.std.specs.Prelude.{◌≡◌};
ghost use Rattle.schedule.specs.Fields.{left};
ghost use Rattle.schedule.specs.Reading.{said_by, proposals_said, line_said, begun, after};

use crate::fields::Fields;
use crate::line::{Line, take_apart};
use crate::refusal::FileRefusal;
use crate::said::{ProposalKind, Proposals, Said};
use crate::said_lines::{close_line, press_line, rig_line, round_line};
use console_sets::{ConsoleSet, union};

// How far a schedule has come: its rig line is next, no press is open, or one is.
#[derive(Clone, Copy, PartialEq, Eq, Debug)]
pub enum Stage {
    Start,
    Closed,
    Open,
}

// What reading a line needs to know of the lines before it.
#[derive(Clone, Copy)]
pub struct Reading {
    pub stage: Stage,
    pub n: u8,
    pub proposals: ProposalKind,
    pub fallen: ConsoleSet,
}

impl Reading {
    // Before the first line.
    pub fn begin() -> Reading
        ensures { result ≡ begun }
    {
        Reading {
            stage: Stage::Start,
            n: 0,
            proposals: ProposalKind::Cue,
            fallen: 0,
        }
    }

    // What the line of this number says, or the first refusal that it meets.
    pub fn read(&self, bytes: &[u8], line: u32) -> Result<Said, FileRefusal>
        ensures { result ≡ said_by self.now line bytes.now }
    {
        // With `ok_or(..)?` in place of the match the proof did not close.
        match take_apart(bytes, line) {
            Some(taken) => self.say(taken),
            None => Err(FileRefusal::UnknownWord { line }),
        }
    }

    // What is known once the line that said this was accepted.
    pub fn accept(&mut self, said: &Said)
        ensures { self.new ≡ after self.old said.now }
    {
        match said {
            Said::Rig(rig) => {
                *self = Reading {
                    stage: Stage::Closed,
                    n: rig.n,
                    proposals: rig.proposals,
                    fallen: 0,
                };
            }
            Said::Press(_) => self.stage = Stage::Open,
            Said::Round(round) => self.fallen = union(self.fallen, round.falls),
            Said::Close => self.stage = Stage::Closed,
        }
    }

    fn say(&self, line: Line<'_>) -> Result<Said, FileRefusal>
        ensures { result ≡ line_said self.now line.entry }
    {
        match (self.stage, line) {
            (Stage::Start, Line::Rig { fields, line }) => rig_line(fields, line).map(Said::Rig),
            (Stage::Closed | Stage::Open, Line::Press { fields, line }) => {
                self.proposals(fields, line).map(Said::Press)
            }
            (Stage::Open, Line::Round { fields, line }) => {
                round_line(fields, line, self.n).map(Said::Round)
            }
            (Stage::Open, Line::Close { fields, line }) => close_line(fields, line),
            (
                _,
                Line::Rig { line, .. }
                | Line::Press { line, .. }
                | Line::Round { line, .. }
                | Line::Close { line, .. },
            ) => { Err(FileRefusal::Misplaced { line }) }
        }
    }

    fn proposals(&self, fields: Fields<'_>, line: u32) -> Result<Proposals, FileRefusal>
        ensures { result ≡ proposals_said self.now.proposals self.now.n self.now.fallen line (left fields.entry) }
    {
        match self.proposals {
            ProposalKind::Cue => {
                press_line(fields, line, self.n, self.fallen).map(Proposals::Cues)
            }
            ProposalKind::First => {
                press_line(fields, line, self.n, self.fallen).map(Proposals::FirstPresses)
            }
        }
    }
}
