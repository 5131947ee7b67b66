// Fields that are numbers or sets of consoles.
#![tactic(auto, using(crate::proofs::Decimals::decimals))]

ghost use Rattle.std.specs.Prelude.{◌≡◌, ◌+◌, ◌<◌, ◌≤◌, ◌∷◌, ◌++◌, length, decimal};
ghost use Rattle.schedule.specs.Texts.{digit_byte, set_text};
ghost use Rattle.sheet.specs.Bound.{max_text};

use crate::text::Text;
use console_sets::ConsoleSet;

// The most decimal digits of a number of 64 bits.
const MAX_DIGITS: usize = 20;

impl Text {
    // The same with a number as one field more. Not by `{}`: of what `write!` prints std says the bytes only where it goes into
    // a `String`. The digits are put together first: a text that grows by each digit takes up to five times the time for a
    // page, and one that grows in place half as much again.
    pub(crate) fn number(self, number: u64) -> Text
        requires { length self + length (decimal number) + 1 ≤ max_text }
        ensures holds { result ≡ self ++ (9 ∷ decimal number) }
        ensures used { length result ≡ length self + length (decimal number) + 1 }
    {
        let mut digits = [0; MAX_DIGITS];
        let mut start = MAX_DIGITS - 1;
        let mut rest = number;
        while rest >= 10 {
            digits[start] = b'0' + (rest % 10) as u8;
            start -= 1;
            rest /= 10;
        }
        digits[start] = b'0' + rest as u8;
        self.and(b"\t").and(&digits[start..])
    }

    // The same with a set of consoles as one field more. Not by `{:04x}`: of what `write!` prints std says
    // the bytes only where it goes into a `String`.
    pub(crate) fn set(self, set: ConsoleSet) -> Text
        requires { length self + 5 ≤ max_text }
        ensures holds { result ≡ self ++ (9 ∷ set_text set) }
        ensures used { length result ≡ length self + 5 }
    {
        self.and(b"\t").and(&[
            digit_byte(set / 4096),
            digit_byte(set / 256 % 16),
            digit_byte(set / 16 % 16),
            digit_byte(set % 16),
        ])
    }
}

// The byte that stands for a digit below 16.
fn digit_byte(digit: u16) -> u8
    requires { digit < 16 }
    ensures { result ≡ digit_byte digit }
{
    if digit < 10 {
        b'0' + digit as u8
    } else {
        b'a' + (digit as u8 - 10)
    }
}
