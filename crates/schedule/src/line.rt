// The next line of a schedule, and a line taken apart by its first word.
ghost use Rattle.std.specs.Prelude.{◌≡◌, ℕ, List, Some, None};
ghost use Rattle.schedule.specs.Lines.{IsLine};
ghost use Rattle.schedule.specs.Kinds.{Apart};

use crate::fields::Fields;
use crate::parts::cut;

// The most bytes of a line, its line feed not counted. The definition says the number again, so that another one is refused.
const MAX_LINE: usize = 512;

// A line by its first word; `fields` borrows what follows the word. Each case holds the line number, as refusals name it.
#[derive(Clone, Copy)]
pub enum Line<'a> {
    Rig { fields: Fields<'a>, line: u32 },
    Press { fields: Fields<'a>, line: u32 },
    Round { fields: Fields<'a>, line: u32 },
    Close { fields: Fields<'a>, line: u32 },
}

// The next line and what is left behind its line feed; none where it is too long or has no line feed.
pub fn next_line(input: &[u8]) -> Option<(&[u8], &[u8])>
    ensures { elim result [ Some p ↦ IsLine input.now p.0.now p.1.now | None ↦ ((line rest : List ℕ) → IsLine input.now line rest → ⊥) ] }
{
    let (line, rest) = cut(input, b'\n');
    match rest {
        [b'\n', rest @ ..] if line.len() <= MAX_LINE => Some((line, rest)),
        _ => None,
    }
}

// A line by its first word; none where the word is unknown.
pub fn take_apart(bytes: &[u8], line: u32) -> Option<Line<'_>>
    ensures { Apart bytes.now line result }
{
    match bytes {
        [b'r', b'i', b'g', fields @ ..] => Some(Line::Rig {
            fields: Fields::new(fields)?,
            line,
        }),
        [b'p', b'r', b'e', b's', b's', fields @ ..] => Some(Line::Press {
            fields: Fields::new(fields)?,
            line,
        }),
        [b'r', b'o', b'u', b'n', b'd', fields @ ..] => Some(Line::Round {
            fields: Fields::new(fields)?,
            line,
        }),
        [b'c', b'l', b'o', b's', b'e', fields @ ..] => Some(Line::Close {
            fields: Fields::new(fields)?,
            line,
        }),
        _ => None,
    }
}
