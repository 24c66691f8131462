//! Grammars of texts: parts, and how far a text spells them.

ghost use Rattle.std.specs.Prelude.{◌≡◌, ◌↔◌, ℕ, ◌+◌, ◌*◌, ◌^◌, ◌<◌, ◌≤◌, [], ◌∷◌, true, MatchOption, IfOk, IfErr, OnErr};
ghost use Rattle.std.specs.Char.{digit_value};
ghost use Rattle.net_addr.specs.Spelling.{Spells, IsTextOf, IsLongestStart};
ghost use Rattle.net_addr.specs.declared.spelling.Part.TheVariants.{Number, Digit, Mark, Group, Gap};
ghost use Rattle.net_addr.specs.declared.spelling.State.TheVariants.{Between, InNumber, InGroup};
ghost use Rattle.net_addr.specs.Reading.{Ends, GroupGoesOn, IsReading, NumberGoesOn, Remains, Takes, is_clear, is_readable};

use std::error::Error;
use std::fmt;

/// The text isn't in the grammar. `at` is the length, in bytes, of the longest prefix of it that
/// begins a spelling: all of an unfinished text, and else the place of the first byte that no
/// spelling has there.
#[derive(Clone, Copy, Debug, PartialEq, Eq)]
pub struct BadAddress {
    pub at: usize,
}

impl fmt::Display for BadAddress {
    fn fmt<W: fmt::Write>(&self, f: &mut fmt::Formatter<W>) -> fmt::Result {
        write!(f, "bad at byte {}", self.at)
    }
}

impl Error for BadAddress {}

// A part of a text.
#[derive(Clone, Copy)]
pub(crate) enum Part {
    // A decimal number to a bound, without leading zeros.
    Number(u8),
    // A hexadecimal digit, in either case.
    Digit,
    // This byte.
    Mark(u8),
    // One to four hexadecimal digits, in either case: 16 bits.
    Group,
    // A colon that stands for this many groups of zeros.
    Gap(u8),
}

// A decimal number under way: its bound, and the number that its digits write so far.
#[derive(Clone, Copy)]
struct Decimal {
    top: u8,
    number: u8,
}

// A group under way: how many digits it has, and the number that they write.
#[derive(Clone, Copy)]
struct Digits {
    count: u8,
    number: u16,
}

// Where a reading stands: between two parts, or in one that may go on.
#[derive(Clone, Copy)]
enum State {
    Between,
    InNumber(Decimal),
    InGroup(Digits),
}

// How far a text has been read: the parts that come next, the value of those that were read, and
// the part under way before them.
#[derive(Clone, Copy)]
struct Reading<'a> {
    parts: &'a [Part],
    value: u128,
    state: State,
}

// The digit that a byte writes, in either case.
fn digit(c: u8, radix: u8) -> Option<u8>
    requires low { 2 ≤ radix }
    requires high { radix ≤ 36 }
    ensures { MatchOption result (radix ≤ digit_value c) (λ d. (d ≡ digit_value c) × (d < radix)) }
{
    let digit = char::from(c).to_digit(u32::from(radix))?;
    Some(digit as u8)
}

// A decimal number's first byte.
fn begin_number<'a>(top: u8, rest: &'a [Part], value: u128, c: u8) -> Option<Reading<'a>>
    requires { IsReading (Number top ∷ rest.now) value Between }
    ensures { Takes (Spells (Number top ∷ rest.now) value) c result }
{
    let number = digit(c, 10)?;
    if number > top {
        return None;
    }
    Some(Reading {
        parts: rest,
        value,
        state: State::InNumber(Decimal { top, number }),
    })
}

// A hexadecimal digit's byte.
fn begin_digit<'a>(rest: &'a [Part], value: u128, c: u8) -> Option<Reading<'a>>
    requires { IsReading (Digit ∷ rest.now) value Between }
    ensures { Takes (Spells (Digit ∷ rest.now) value) c result }
{
    let digit = digit(c, 16)?;
    Some(Reading {
        parts: rest,
        value: value * 16 + u128::from(digit),
        state: State::Between,
    })
}

// A mark's byte.
#[tactic(auto, using(crate::proofs::SpellingLemmas::mark_agrees, crate::proofs::SpellingLemmas::begins_mark))]
fn begin_mark<'a>(mark: u8, rest: &'a [Part], value: u128, c: u8) -> Option<Reading<'a>>
    requires { IsReading (Mark mark ∷ rest.now) value Between }
    ensures { Takes (Spells (Mark mark ∷ rest.now) value) c result }
{
    if c != mark {
        return None;
    }
    Some(Reading {
        parts: rest,
        value,
        state: State::Between,
    })
}

// A group's first byte.
fn begin_group<'a>(rest: &'a [Part], value: u128, c: u8) -> Option<Reading<'a>>
    requires { IsReading (Group ∷ rest.now) value Between }
    ensures { Takes (Spells (Group ∷ rest.now) value) c result }
{
    let digit = digit(c, 16)?;
    let digits = Digits {
        count: 1,
        number: u16::from(digit),
    };
    Some(Reading {
        parts: rest,
        value,
        state: State::InGroup(digits),
    })
}

// The value with this many groups of zeros after it.
fn with_zeros(value: u128, count: u8) -> u128
    requires { value * 2 ^ (16 * count) < 2 ^ 128 }
    ensures { result ≡ value * 2 ^ (16 * count) }
{
    if value == 0 {
        return 0;
    }
    value << (16 * u32::from(count))
}

// A gap's byte.
fn begin_gap<'a>(count: u8, rest: &'a [Part], value: u128, c: u8) -> Option<Reading<'a>>
    requires { IsReading (Gap count ∷ rest.now) value Between }
    ensures { Takes (Spells (Gap count ∷ rest.now) value) c result }
{
    if c != b':' {
        return None;
    }
    Some(Reading {
        parts: rest,
        value: with_zeros(value, count),
        state: State::Between,
    })
}

// The first byte of the parts.
fn begin<'a>(parts: &'a [Part], value: u128, c: u8) -> Option<Reading<'a>>
    requires { IsReading parts.now value Between }
    ensures { Takes (Spells parts.now value) c result }
{
    let (part, rest) = parts.split_first()?;
    match part {
        Part::Number(top) => begin_number(*top, rest, value, c),
        Part::Digit => begin_digit(rest, value, c),
        Part::Mark(mark) => begin_mark(*mark, rest, value, c),
        Part::Group => begin_group(rest, value, c),
        Part::Gap(count) => begin_gap(*count, rest, value, c),
    }
}

// A number under way with one more digit.
fn grow(decimal: Decimal, digit: u8) -> Option<Decimal>
    requires digit { digit < 10 }
    requires bound { decimal.number ≤ decimal.top }
    ensures { MatchOption result (0 < decimal.number → decimal.top < decimal.number * 10 + digit)
        (λ d. (0 < decimal.number) × (d.top ≡ decimal.top)
        × (d.number ≡ decimal.number * 10 + digit) × (d.number ≤ d.top)) }
{
    let number = u16::from(decimal.number) * 10 + u16::from(digit);
    if decimal.number == 0 || number > u16::from(decimal.top) {
        return None;
    }
    Some(Decimal {
        top: decimal.top,
        number: number as u8,
    })
}

// One more byte after a number under way.
fn go_on_number<'a>(parts: &'a [Part], value: u128, decimal: Decimal, c: u8) -> Option<Reading<'a>>
    requires { IsReading parts.now value (InNumber decimal) }
    ensures { Takes (NumberGoesOn parts.now value decimal.top decimal.number) c result }
{
    let Some(digit) = digit(c, 10) else {
        return begin(parts, value * 256 + u128::from(decimal.number), c);
    };
    let grown = grow(decimal, digit)?;
    Some(Reading {
        parts,
        value,
        state: State::InNumber(grown),
    })
}

// One more byte after a group under way.
fn go_on_group<'a>(parts: &'a [Part], value: u128, digits: Digits, c: u8) -> Option<Reading<'a>>
    requires { IsReading parts.now value (InGroup digits) }
    ensures { Takes (GroupGoesOn parts.now value digits.count digits.number) c result }
{
    let Some(digit) = digit(c, 16) else {
        return begin(parts, value * 65536 + u128::from(digits.number), c);
    };
    if digits.count == 4 {
        return None;
    }
    let grown = Digits {
        count: digits.count + 1,
        number: digits.number * 16 + u16::from(digit),
    };
    Some(Reading {
        parts,
        value,
        state: State::InGroup(grown),
    })
}

// One more byte.
fn step<'a>(reading: Reading<'a>, c: u8) -> Option<Reading<'a>>
    requires { IsReading reading.parts.now reading.value reading.state }
    ensures { Takes (Remains reading.entry.parts.now reading.entry.value reading.entry.state) c
        result }
{
    match reading.state {
        State::Between => begin(reading.parts, reading.value, c),
        State::InNumber(decimal) => go_on_number(reading.parts, reading.value, decimal, c),
        State::InGroup(digits) => go_on_group(reading.parts, reading.value, digits, c),
    }
}

// The value, where no parts are left.
fn end(parts: &[Part], value: u128) -> Option<u128>
    requires { is_clear parts.now ≡ true }
    ensures { Ends (Spells parts.now value) result }
{
    if !parts.is_empty() {
        return None;
    }
    Some(value)
}

// The value of the whole, where the text may end here.
fn finish(reading: Reading<'_>) -> Option<u128>
    requires { IsReading reading.parts.now reading.value reading.state }
    ensures { Ends (Remains reading.entry.parts.now reading.entry.value reading.entry.state)
        result }
{
    match reading.state {
        State::Between => end(reading.parts, reading.value),
        State::InNumber(decimal) => {
            let value = reading.value * 256 + u128::from(decimal.number);
            end(reading.parts, value)
        }
        State::InGroup(digits) => {
            let value = reading.value * 65536 + u128::from(digits.number);
            end(reading.parts, value)
        }
    }
}

// The value of a text of these parts.
pub(crate) fn read_parts(parts: &[Part], text: &[u8]) -> Result<u128, BadAddress>
    requires { is_readable parts.now ≡ true }
    ensures ok { IfOk result (λ v. (n : ℕ) → Spells parts.now 0 text.now n ↔ (n ≡ v)) }
    ensures refused { OnErr result (¬ (IsTextOf parts.now text.now)) }
    ensures at { IfErr result (λ e. IsLongestStart (IsTextOf parts.now) text.now e.at) }
{
    let mut reading = Reading {
        parts,
        value: 0,
        state: State::Between,
    };
    for (at, c) in text.iter().enumerate() {
        let Some(next) = step(reading, *c) else {
            return Err(BadAddress { at });
        };
        reading = next;
    }
    let Some(value) = finish(reading) else {
        return Err(BadAddress { at: text.len() });
    };
    Ok(value)
}
