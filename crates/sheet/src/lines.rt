// The lines of a sheet.
#![tactic(auto, using(crate::proofs::Sewing::sewing, crate::proofs::Decimals::lengths))]

ghost use Rattle.std.specs.Prelude.{◌≡◌, ◌<◌, ◌≤◌, length};
ghost use Rattle.console_sets.specs.Bound.{max_consoles};
ghost use Rattle.front.specs.Consoles.{state_of};
ghost use Rattle.sheet.specs.Bound.{max_text};
ghost use Rattle.sheet.specs.Lines.{end_word, author_of, page_line, console_line, end_line, refused_line};

use crate::authors::author_of;
use crate::text::Text;
use crate::waiting::wait;
use front::Console;
use rig::{End, Page};
use rounds::Layer;

// The line of a page of n consoles.
pub(crate) fn page_line(n: u8, page: &Page) -> Text
    ensures { result ≡ page_line page.now.press page.now.end page.now.rounds (author_of n (state_of page.now.consoles)) }
{
    Text::begin("page")
        .number(page.press.into())
        .word(end_word(page.end))
        .number(page.rounds.into())
        .number(author_of(n, &page.consoles).into())
        .end()
}

// The line of the console of index c on a page.
pub(crate) fn console_line(c: u8, console: &Console, round_length: u32) -> Text
    requires { c < max_consoles }
    ensures { result ≡ console_line round_length c console.now }
{
    Text::begin("console")
        .number((c + 1).into())
        .number(console.estimate.into())
        .set(console.halt)
        .number(console.decision.into())
        .number(console.round.into())
        .word(console.cause.word())
        .number(wait(console.round, round_length))
        .end()
}

// The last line of a sheet whose schedule was accepted: how many lines that has.
pub fn end_line(count: u32) -> Text
    ensures line { result ≡ end_line count }
    ensures room { length result ≤ max_text }
{
    Text::begin("end").number(count.into()).end()
}

// The last line of a sheet whose schedule was refused: why, and at which line and place of it.
pub fn refused_line(number: u8, layer: Layer, line: u32, place: u32) -> Text
    ensures line { result ≡ refused_line number layer line place }
    ensures room { length result ≤ max_text }
{
    Text::begin("refused")
        .number(number.into())
        .word(layer.word())
        .number(line.into())
        .number(place.into())
        .end()
}

// The word of an end. Not `Display`, as for the words of a cause and of a layer.
fn end_word(end: End) -> &'static str
    ensures holds { result.now ≡ end_word end }
    ensures short { length result.now ≤ 7 }
{
    match end {
        End::Settled => "settled",
        End::Dropped => "dropped",
    }
}
