// What the fields of each kind of line say.
ghost use Rattle.std.specs.Prelude.{◌≡◌, ◌≤◌, if◌then◌else◌, Ok, Err, ◌==◌, length, OnOk, is_none};
ghost use Rattle.console_sets.specs.Sets.{lowest};
ghost use Rattle.schedule.specs.Numbers.{number_said};
ghost use Rattle.schedule.specs.declared.refusal.FileRefusal.TheVariants.{FieldCount};
ghost use Rattle.schedule.specs.Values.{proposal_said};
ghost use Rattle.schedule.specs.Said.{rig_said, press_said, round_said, each_console, proposal_at};
ghost use Rattle.schedule.specs.Fields.{left};
ghost use Rattle.schedule.specs.Reading.{close_said};

use crate::field::{ConsoleValue, FieldValue};
use crate::fields::Fields;
use crate::numbers::number;
use crate::refusal::FileRefusal;
use crate::said::{BackEndKind, ProposalKind, RigLine, RoundLine, Said};
use console_sets::{ConsoleSet, MAX_CONSOLES, has};

// How many fields stand behind the word of a rig line.
const RIG_FIELDS: usize = 5;

// The longest round, in microseconds. The definition says the number again, so that another one is refused.
const LONGEST_ROUND: u32 = 1_000_000;

// How many consoles a field says that there are, or that may fall.
fn consoles(field: &[u8]) -> Option<u8>
    ensures { result ≡ number_said 0 255 field.now }
{
    u8::try_from(number(field, 0, u32::from(u8::MAX))?).ok()
}

// Refuses a line that has another number of fields.
fn check_count(fields: Fields<'_>, line: u32, count: usize) -> Result<(), FileRefusal>
    ensures result { result ≡ (if length (left fields.entry) == count then Ok tt else Err (FieldCount line)) }
    ensures ok { OnOk result (length (left fields.entry) ≡ count) }
{
    if fields.len() == count {
        Ok(())
    } else {
        Err(FileRefusal::FieldCount { line })
    }
}

// What a field says of a console: `-` exactly where it has fallen.
#[tactic(auto, using(crate::proofs::Same::same_stands))]
fn said_of<V: ConsoleValue>(fell: bool, field: &[u8]) -> Option<V>
    ensures { result ≡ proposal_said V.BLANK V.said fell field.now }
{
    match (fell, field) {
        (false, _) => V::parse(field),
        (true, b"-") => Some(V::BLANK),
        (true, _) => None,
    }
}

// What the fields say of the consoles up to n, or the number of the lowest whose field is bad.
fn read_each<V: ConsoleValue>(
    fields: Fields<'_>,
    n: u8,
    fallen: ConsoleSet,
) -> Result<[V; MAX_CONSOLES], u8>
    requires { n ≤ length (left fields) }
    ensures { result ≡ (if lowest (λ c. is_none (proposal_at (proposal_said V.BLANK V.said) fallen (left fields.entry) c)) n == 0
        then Ok (each_console n V.BLANK (proposal_at (proposal_said V.BLANK V.said) fallen (left fields.entry)))
        else Err (lowest (λ c. is_none (proposal_at (proposal_said V.BLANK V.said) fallen (left fields.entry) c)) n)) }
{
    let mut values = [V::BLANK; MAX_CONSOLES];
    for (c, field) in (0..n).zip(fields) {
        let value = said_of(has(fallen, c), field).ok_or(c + 1)?;
        // With `get_mut` in its place the proof did not close.
        if (c as usize) < MAX_CONSOLES {
            values[c as usize] = value;
        }
    }
    Ok(values)
}

pub(crate) fn rig_line(fields: Fields<'_>, line: u32) -> Result<RigLine, FileRefusal>
    ensures { result ≡ rig_said line (left fields.entry) }
{
    check_count(fields, line, RIG_FIELDS)?;
    let bad = |place| FileRefusal::BadField { line, place };
    let n = consoles(fields.at(0)).ok_or(bad(2))?;
    let t = consoles(fields.at(1)).ok_or(bad(3))?;
    let proposals = ProposalKind::parse(fields.at(2)).ok_or(bad(4))?;
    let back_end = BackEndKind::parse(fields.at(3)).ok_or(bad(5))?;
    let round_length = number(fields.at(4), 1, LONGEST_ROUND).ok_or(bad(6))?;
    Ok(RigLine {
        n,
        t,
        proposals,
        back_end,
        round_length,
    })
}

pub(crate) fn press_line<V: ConsoleValue>(
    fields: Fields<'_>,
    line: u32,
    n: u8,
    fallen: ConsoleSet,
) -> Result<[V; MAX_CONSOLES], FileRefusal>
    ensures { result ≡ press_said V.BLANK (proposal_said V.BLANK V.said) n fallen line (left fields.entry) }
{
    check_count(fields, line, usize::from(n))?;
    read_each(fields, n, fallen).map_err(|console| FileRefusal::BadField {
        line,
        place: u32::from(console) + 1,
    })
}

pub(crate) fn round_line(mut fields: Fields<'_>, line: u32, n: u8) -> Result<RoundLine, FileRefusal>
    ensures { result ≡ round_said n line (left fields.entry) }
{
    check_count(fields, line, usize::from(n) + 1)?;
    let falls = fields
        .next()
        .and_then(ConsoleSet::parse)
        .ok_or(FileRefusal::BadField { line, place: 2 })?;
    let rows = read_each(fields, n, 0).map_err(|console| FileRefusal::BadField {
        line,
        place: u32::from(console) + 2,
    })?;
    Ok(RoundLine { falls, rows })
}

pub(crate) fn close_line(fields: Fields<'_>, line: u32) -> Result<Said, FileRefusal>
    ensures { result ≡ close_said line (left fields.entry) }
{
    check_count(fields, line, 0)?;
    Ok(Said::Close)
}
