//! Texts of IPv6 addresses.
ghost use Rattle.std.specs.Prelude.{◌≡◌, ℕ, ◌+◌, ◌-◌, ◌*◌, ◌<◌, ◌≤◌, [], ◌++◌, length, IfOk, IfErr, OnErr};
ghost use Rattle.net_addr.specs.Spelling.{SpellsAddress6, IsAddress6Text, IsLongestStart, end_parts, group_count, groups_before, row_parts, shortened_parts};
ghost use Rattle.net_addr.specs.Reading.{IsRead, SpellsBehind, SpellsShortened, SpellsWhole, better_of};

use crate::address::Addr6;
use crate::read::ADDRESS;
use crate::spelling::{BadAddress, Part, read_parts};
use std::marker::Model;

// Eight groups, each with a colon after it.
const GROUPS: [Part; 16] = [
    Part::Group,
    Part::Mark(b':'),
    Part::Group,
    Part::Mark(b':'),
    Part::Group,
    Part::Mark(b':'),
    Part::Group,
    Part::Mark(b':'),
    Part::Group,
    Part::Mark(b':'),
    Part::Group,
    Part::Mark(b':'),
    Part::Group,
    Part::Mark(b':'),
    Part::Group,
    Part::Mark(b':'),
];

// The parts of one form of text, of which the longest has 19: six groups and an IPv4 text.
#[derive(Drop)]
struct Form {
    parts: [Part; 19],
    len: usize,
}

impl Model for Form {
    ghost use Rattle.std.specs.Prelude.{◌≤◌, List, take};
    ghost use Rattle.net_addr.specs.declared.spelling.Part.{Part};

    ghost Value = { List Part };

    ghost view = { λ f. take f.len f.parts };

    ghost invariant = { λ f. f.len ≤ 19 };
}

impl Form {
    fn new() -> Form
        ensures { result ≡ [] }
    {
        Form {
            parts: [Part::Group; 19],
            len: 0,
        }
    }

    fn as_slice(&self) -> &[Part]
        ensures { result.now ≡ self.now }
    {
        &self.parts[..self.len]
    }

    fn push_all(&mut self, parts: &[Part])
        requires { length self.old + length parts.now ≤ 19 }
        ensures { self.new ≡ self.old ++ parts.now }
    {
        let len = self.len + parts.len();
        self.parts[self.len..len].copy_from_slice(parts);
        self.len = len;
    }

    // Groups with colons between.
    fn push_row(&mut self, count: u8)
        requires few { count ≤ 8 }
        requires room { length self.old + (2 * count - 1) ≤ 19 }
        ensures { self.new ≡ self.old ++ row_parts count }
    {
        let len = (2 * usize::from(count)).saturating_sub(1);
        self.push_all(&GROUPS[..len]);
    }

    // Groups with colons between, and an IPv4 text after them if there is a tail.
    fn push_end(&mut self, count: u8, has_tail: bool)
        requires { length self.old + 2 * count ≤ 2 * group_count has_tail }
        ensures { self.new ≡ self.old ++ end_parts has_tail count }
    {
        if has_tail {
            self.push_all(&GROUPS[..2 * usize::from(count)]);
            self.push_all(&ADDRESS);
        } else {
            self.push_row(count);
        }
    }
}

// How many groups there are: an IPv4 text stands for the last two of eight.
fn group_count(has_tail: bool) -> u8
    ensures { result ≡ group_count has_tail }
{
    if has_tail { 6 } else { 8 }
}

// All groups.
fn whole(has_tail: bool) -> Form
    ensures { result ≡ end_parts has_tail (group_count has_tail) }
{
    let mut form = Form::new();
    form.push_end(group_count(has_tail), has_tail);
    form
}

// `::` between groups, for all the others.
fn form_with_gap(left: u8, right: u8, has_tail: bool) -> Form
    requires { left + right < group_count has_tail }
    ensures { result ≡ shortened_parts has_tail left right }
{
    let count = group_count(has_tail) - (left + right);
    let mut form = Form::new();
    form.push_row(left);
    form.push_all(&[Part::Mark(b':'), Part::Gap(count)]);
    form.push_end(right, has_tail);
    form
}

// The address of a text with all groups.
fn read_whole(has_tail: bool, text: &[u8]) -> Result<u128, BadAddress>
    ensures { IsRead (SpellsWhole has_tail) text.now result }
{
    let form = whole(has_tail);
    read_parts(form.as_slice(), text)
}

// The address of a text with `::` after this many groups.
fn read_behind(left: u8, has_tail: bool, text: &[u8]) -> Result<u128, BadAddress>
    requires { left < group_count has_tail }
    ensures { IsRead (SpellsBehind has_tail left) text.now result }
{
    let mut at = 0;
    for right in 0..group_count(has_tail) - left {
        let form = form_with_gap(left, right, has_tail);
        match read_parts(form.as_slice(), text) {
            Ok(value) => return Ok(value),
            Err(bad) => at = at.max(bad.at),
        }
    }
    Err(BadAddress { at })
}

// The address of a text with `::`.
fn read_shortened(has_tail: bool, text: &[u8]) -> Result<u128, BadAddress>
    ensures { IsRead (SpellsShortened has_tail) text.now result }
{
    let mut at = 0;
    for left in 0..group_count(has_tail) {
        match read_behind(left, has_tail, text) {
            Ok(value) => return Ok(value),
            Err(bad) => at = at.max(bad.at),
        }
    }
    Err(BadAddress { at })
}

// The better of two readings of one text: an address, or else the longer start.
fn better(a: Result<u128, BadAddress>, b: Result<u128, BadAddress>) -> Result<u128, BadAddress>
    ensures { result ≡ better_of a b }
{
    match (a, b) {
        (Ok(value), _) => Ok(value),
        (Err(_), Ok(value)) => Ok(value),
        (Err(x), Err(y)) => Err(BadAddress { at: x.at.max(y.at) }),
    }
}

// The address of a text of any form.
fn read_forms(text: &[u8]) -> Result<u128, BadAddress>
    ensures { IsRead SpellsAddress6 text.now result }
{
    let groups = better(read_whole(false, text), read_shortened(false, text));
    let tailed = better(read_whole(true, text), read_shortened(true, text));
    better(groups, tailed)
}

impl Addr6 {
    /// Reads eight groups of one to four hexadecimal digits, in either case, with colons between
    /// them, where `::` may stand once for one or more groups of zeros, and the last two groups may
    /// be an IPv4 text (RFC 4291, 2.2; RFC 3986, 3.2.2). A zone isn't read. Takes no memory; its
    /// cost grows with the text up to the first bad byte.
    pub fn read(text: &[u8]) -> Result<Addr6, BadAddress>
        ensures ok { IfOk result (λ a. SpellsAddress6 text.now a) }
        ensures only { IfOk result (λ a. (n : ℕ) → SpellsAddress6 text.now n → n ≡ a) }
        ensures refused { OnErr result (¬ (IsAddress6Text text.now)) }
        ensures at { IfErr result (λ e. IsLongestStart IsAddress6Text text.now e.at) }
    {
        let number = read_forms(text)?;
        Ok(Addr6(number))
    }
}
