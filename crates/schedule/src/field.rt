// Values that a field of a line can say.
ghost use Rattle.std.specs.Prelude.{◌≡◌, ℕ, List, Option as Opt};
ghost use Rattle.schedule.specs.Numbers.{set_said};
ghost use Rattle.schedule.specs.Values.{cue_said, behind_colon, first_said, kind_said, back_end_said, word_said};

use crate::numbers::{number, set};
use crate::parts::cut;
use crate::said::{BackEndKind, ProposalKind};
use console_sets::ConsoleSet;
use orders::{Cue, FirstPress};

// A value that a field spells.
pub(crate) trait FieldValue: Sized {
    ghost said: { List ℕ → Opt Self };

    fn parse(field: &[u8]) -> Option<Self>
        ensures { result ≡ said field.now };
}

// A value that a line spells for each console.
pub(crate) trait ConsoleValue: FieldValue + Copy {
    // The value of a console of which nothing is said.
    const BLANK: Self;

    ghost BLANK: { Self };
}

impl FieldValue for ConsoleSet {
    ghost said = { λ bs. set_said bs };

    fn parse(field: &[u8]) -> Option<ConsoleSet> {
        set(field)
    }
}

impl ConsoleValue for ConsoleSet {
    const BLANK: ConsoleSet = 0;

    ghost BLANK = { 0 };
}

fn word(field: &[u8]) -> Option<u32>
    ensures { result ≡ word_said field.now }
{
    number(field, 0, u32::MAX)
}

impl FieldValue for Cue {
    ghost said = { λ bs. cue_said bs };

    fn parse(field: &[u8]) -> Option<Cue> {
        word(field).map(Cue)
    }
}

impl ConsoleValue for Cue {
    const BLANK: Cue = Cue(0);

    ghost BLANK = { record { 0 = 0 } };
}

// The cue behind a colon.
fn behind_colon(rest: &[u8]) -> Option<u32>
    ensures { result ≡ behind_colon rest.now }
{
    match rest {
        [b':', cue @ ..] => word(cue),
        _ => None,
    }
}

impl FieldValue for FirstPress {
    ghost said = { λ bs. first_said bs };

    fn parse(field: &[u8]) -> Option<FirstPress> {
        let (tick, rest) = cut(field, b':');
        Some(FirstPress {
            tick: word(tick)?,
            cue: behind_colon(rest)?,
        })
    }
}

impl ConsoleValue for FirstPress {
    const BLANK: FirstPress = FirstPress { tick: 0, cue: 0 };

    ghost BLANK = { record { tick = 0; cue = 0 } };
}

impl FieldValue for ProposalKind {
    ghost said = { λ bs. kind_said bs };

    #[tactic(auto, using(crate::proofs::Same::same_stands))]
    fn parse(field: &[u8]) -> Option<ProposalKind> {
        match field {
            b"cue" => Some(ProposalKind::Cue),
            b"first" => Some(ProposalKind::First),
            _ => None,
        }
    }
}

impl FieldValue for BackEndKind {
    ghost said = { λ bs. back_end_said bs };

    #[tactic(auto, using(crate::proofs::Same::same_stands))]
    fn parse(field: &[u8]) -> Option<BackEndKind> {
        match field {
            b"leader" => Some(BackEndKind::Leader),
            b"third" => Some(BackEndKind::Third),
            _ => None,
        }
    }
}
