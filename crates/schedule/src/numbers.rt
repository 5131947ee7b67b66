// What a field says as a number or as a set of consoles.
ghost use Rattle.std.specs.Prelude.{◌≡◌, ◌+◌, ◌*◌, ◌^◌, ◌≤◌, ◌&&◌, if◌then◌else◌, Some, None, nat_lt, ◌==◌, not, length, slice_index_or};
ghost use Rattle.std.specs.List.{list_all};
ghost use Rattle.schedule.specs.Numbers.{is_digit, digit as digit_of, value, number_said, set_said};

use console_sets::ConsoleSet;

// How many hexadecimal digits a set has.
const SET_DIGITS: usize = 4;

// The digit of the base that a byte stands for. Not `to_digit` of `char`: it takes upper-case letters too.
fn digit(b: u8, base: u32) -> Option<u32>
    ensures { result ≡ (if is_digit base b then Some (digit_of b) else None) }
{
    let digit = match b {
        b'0'..=b'9' => b - b'0',
        b'a'..=b'f' => b - b'a' + 10,
        _ => return None,
    };
    Some(u32::from(digit)).filter(|digit| *digit < base)
}

// A number with one digit more behind it, if the result has 32 bits.
fn behind(number: u32, base: u32, b: u8) -> Option<u32>
    ensures { result ≡ (if is_digit base b && nat_lt (number * base + digit_of b) (2 ^ 32) then Some (number * base + digit_of b) else None) }
{
    let digit = digit(b, base)?;
    number.checked_mul(base)?.checked_add(digit)
}

// The number that bytes write in a base, if each is a digit of it and the number has 32 bits.
fn number_in(bytes: &[u8], base: u32) -> Option<u32>
    requires { 1 ≤ base }
    ensures { result ≡ (if list_all (is_digit base) bytes.now && nat_lt (value base bytes.now) (2 ^ 32) then Some (value base bytes.now) else None) }
{
    bytes
        .iter()
        .try_fold(0, |number, b| behind(number, base, *b))
}

// Whether there are bytes, the first of them no `0` unless it stands alone.
fn is_plain(field: &[u8]) -> bool
    ensures { result ≡ (nat_lt 0 (length field.now) && not (slice_index_or field.now 0 0 == 48 && nat_lt 1 (length field.now))) }
{
    !matches!(field, [] | [b'0', _, ..])
}

// What a field says as a decimal number from `least` to `most`. Not std's `parse`: it takes a sign and leading zeros.
#[tactic(auto, using(crate::proofs::Digits::decimal_is))]
pub(crate) fn number(field: &[u8], least: u32, most: u32) -> Option<u32>
    ensures { result ≡ number_said least most field.now }
{
    if !is_plain(field) {
        return None;
    }
    number_in(field, 10).filter(|number| (least..=most).contains(number))
}

// What a field says as a set of consoles.
pub(crate) fn set(field: &[u8]) -> Option<ConsoleSet>
    ensures { result ≡ set_said field.now }
{
    if field.len() != SET_DIGITS {
        return None;
    }
    ConsoleSet::try_from(number_in(field, 16)?).ok()
}
