// How lines go into a buffer, one behind the other. A line goes in whole or not at all.
ghost use Rattle.std.specs.Prelude.{◌≡◌, ◌≤◌, min, [], ◌∷◌, length};
ghost use Rattle.console_sets.specs.Bound.{max_consoles};
ghost use Rattle.sheet.specs.Bound.{max_text};
ghost use Rattle.sheet.specs.Lines.{lines_of};
ghost use Rattle.sheet.specs.Printing.{fit, put, print_answer};

use crate::lines::{console_line, page_line};
use crate::text::Text;
use console_sets::MAX_CONSOLES;
use rig::Page;

// A line did not fit.
#[derive(Clone, Copy, PartialEq, Eq, Debug)]
pub struct NoRoom {
    // How many bytes the lines before it take.
    pub len: usize,
}

// Writes a line behind the first `len` bytes, and tells how many are used then. Buffer and `len` are two parameters: a caller
// has the buffer to itself between two lines.
pub fn print(out: &mut [u8], len: usize, line: &Text) -> Result<usize, NoRoom>
    ensures answers { result ≡ print_answer (length out.old) len (line.now ∷ []) }
    ensures leaves { out.new ≡ put out.old len (fit (length out.old) len (line.now ∷ [])) }
    ensures room { length line.now ≤ max_text }
{
    let bytes = line.as_bytes();
    match len.checked_add(bytes.len()) {
        Some(end) if end <= out.len() => {
            out[len..end].copy_from_slice(bytes);
            Ok(end)
        }
        _ => Err(NoRoom { len }),
    }
}

// The same of the lines of a page of n consoles, up to the first that does not fit. An n above MAX_CONSOLES counts as
// MAX_CONSOLES.
pub fn print_page(
    out: &mut [u8],
    len: usize,
    n: u8,
    page: &Page,
    round_length: u32,
) -> Result<usize, NoRoom>
    ensures answers { result ≡ print_answer (length out.old) len (lines_of (min n max_consoles) round_length page.now) }
    ensures leaves { out.new ≡ put out.old len (fit (length out.old) len (lines_of (min n max_consoles) round_length page.now)) }
{
    let n = n.min(MAX_CONSOLES as u8);
    let consoles = &page.consoles[..n as usize];
    let mut used = print(out, len, &page_line(n, page))?;
    for (i, console) in consoles.iter().enumerate() {
        used = print(out, used, &console_line(i as u8, console, round_length))?;
    }
    Ok(used)
}
