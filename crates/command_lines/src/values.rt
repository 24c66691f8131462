//! Values of options, and numbers.

ghost use Rattle.std.specs.Prelude.{◌≡◌, ◌≤◌, IfOk, IsTrue, option_map};
ghost use Rattle.std.specs.List.{list_all};
ghost use Rattle.std.specs.Char.{is_ascii_digit};
ghost use Rattle.std.specs.Str.Parse.{digits_value};
ghost use Rattle.command_lines.specs.Lines.{IsAnswer};
ghost use Rattle.command_lines.specs.Values.{delivery_of, is_digits as are_digits, is_set as is_set_by, is_value as is_value_by, number_of, optional_value as optional, required_number as required_within, required_value as required};

use crate::line::{Delivery, Refusal};
use net_addr::Text;
use std::alloc::Global;

const MOST_CONNECTIONS: u64 = 1_000_000;

const MOST_ROUNDS: u64 = 1_000_000;

const LARGEST_DRILL: u64 = 10_000;

// Whether a value isn't empty and doesn't begin with a hyphen.
fn is_value(text: &str) -> bool
    ensures { result ≡ is_value_by text.now }
{
    match text.as_bytes() {
        [] => false,
        [first, ..] => *first != b'-',
    }
}

/// The value of an option that may be absent.
pub(crate) fn optional_value(alloc: Global, given: Option<&str>) -> Result<Option<Text>, Refusal>
    ensures { IsAnswer result (optional (option_map (λ s. s.now) given.entry)) }
{
    match given {
        None => Ok(None),
        Some(text) if is_value(text) => Ok(Some(Text::of(alloc, text)?)),
        Some(_) => Err(Refusal::Wrong),
    }
}

/// The value of an option that is asked for.
pub(crate) fn required_value(alloc: Global, given: Option<&str>) -> Result<Text, Refusal>
    ensures { IsAnswer result (required (option_map (λ s. s.now) given.entry)) }
{
    match given {
        Some(text) if is_value(text) => Ok(Text::of(alloc, text)?),
        Some(_) | None => Err(Refusal::Wrong),
    }
}

/// The way of delivery, which is automatic where nothing is said.
pub(crate) fn delivery(given: Option<&str>) -> Result<Delivery, Refusal>
    ensures { IsAnswer result (delivery_of (option_map (λ s. s.now) given.entry)) }
{
    match given {
        None | Some("auto") => Ok(Delivery::Automatic),
        Some("manual") => Ok(Delivery::Manual),
        Some(_) => Err(Refusal::Wrong),
    }
}

/// Whether an option without a value was there.
pub(crate) fn is_set(given: Option<&str>) -> bool
    ensures { result ≡ is_set_by (option_map (λ s. s.now) given.entry) }
{
    match given {
        Some(text) => text == "true",
        None => false,
    }
}

fn all_digits(text: &[u8]) -> bool
    ensures { result ≡ list_all is_ascii_digit text.now }
{
    text.iter().all(|b| b.is_ascii_digit())
}

fn is_digits(text: &[u8]) -> bool
    ensures { result ≡ are_digits text.now }
{
    1 <= text.len() && text.len() <= 20 && all_digits(text)
}

// The number that 1 to 20 digits write.
fn digits(text: &[u8]) -> u128
    requires { IsTrue (are_digits text.now) }
    ensures { result ≡ digits_value 10 text.now }
{
    let mut number: u128 = 0;
    for digit in text {
        number = number * 10 + u128::from(*digit - b'0');
    }
    number
}

// The number from the least to the most that a word writes.
fn number(text: &str, least: u64, most: u64) -> Result<u64, Refusal>
    ensures answer { IsAnswer result (number_of least most text.now) }
    ensures most { IfOk result (λ n. n ≤ most) }
{
    let text = text.as_bytes();
    if !is_digits(text) {
        return Err(Refusal::Wrong);
    }
    let number = digits(text);
    if u128::from(least) <= number && number <= u128::from(most) {
        return Ok(number as u64);
    }
    Err(Refusal::Wrong)
}

/// The number, from the least to the most, that is asked for.
pub(crate) fn required_number(given: Option<&str>, least: u64, most: u64) -> Result<u64, Refusal>
    ensures answer { IsAnswer result
        (required_within least most (option_map (λ s. s.now) given.entry)) }
    ensures most { IfOk result (λ n. n ≤ most) }
{
    match given {
        Some(text) => number(text, least, most),
        None => Err(Refusal::Wrong),
    }
}

/// How many connections are served, from 1 to 1,000,000.
pub(crate) fn connections(given: Option<&str>) -> Result<u64, Refusal>
    ensures { IsAnswer result
        (required_within 1 1000000 (option_map (λ s. s.now) given.entry)) }
{
    required_number(given, 1, MOST_CONNECTIONS)
}

/// How many times the server is asked, from 1 to 1,000,000.
pub(crate) fn rounds(given: Option<&str>) -> Result<u64, Refusal>
    ensures { IsAnswer result
        (required_within 1 1000000 (option_map (λ s. s.now) given.entry)) }
{
    required_number(given, 1, MOST_ROUNDS)
}

/// How large a drill is, from 1 to 10,000.
pub(crate) fn drill_size(given: Option<&str>) -> Result<u32, Refusal>
    ensures { IsAnswer result (required_within 1 10000 (option_map (λ s. s.now) given.entry)) }
{
    let size = required_number(given, 1, LARGEST_DRILL)?;
    Ok(size as u32)
}
