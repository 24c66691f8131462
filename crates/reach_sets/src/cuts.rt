//! Where the pieces of numbers begin that no rule of two ports tells apart.

ghost use Rattle.std.specs.Prelude.{◌≡◌, ◌<◌, ◌≤◌, ℕ};
ghost use Rattle.reach_laws.specs.Numbers.{number_end};
ghost use Rattle.reach_laws.specs.Pieces.{is_of};
ghost use Rattle.reach_sets.specs.Cuts.{IsPiece, cut_after, cut_around, cut_at, cut_by_rule, cut_by_rules, first_cut, lower, next_cut};
ghost use Rattle.reach_sets.specs.TwoPorts.{two_ports};

use crate::pair::Pair;
use api_types::{Rows, RuleRow, Shared};
use reach_laws::ReachKind;

fn lower(at: u32, next: u32, cut: u32) -> u32
    ensures { result ≡ lower at next cut }
{
    if at < cut && cut < next { cut } else { next }
}

fn cut_at(at: u32, next: u32, first: Option<u16>) -> u32
    ensures { result ≡ cut_at at next first }
{
    match first {
        None => next,
        Some(first) => lower(at, next, u32::from(first)),
    }
}

fn cut_after(at: u32, next: u32, last: Option<u16>) -> u32
    ensures { result ≡ cut_after at next last }
{
    match last {
        None => next,
        Some(last) => lower(at, next, u32::from(last) + 1),
    }
}

// A protocol is a piece of its own.
fn cut_around(at: u32, next: u32, protocol: Option<u8>) -> u32
    ensures { result ≡ cut_around at next protocol }
{
    match protocol {
        None => next,
        Some(number) => {
            let number = u16::from(number);
            cut_after(at, cut_at(at, next, Some(number)), Some(number))
        }
    }
}

fn cut_by_rule(kind: ReachKind, at: u32, next: u32, rule: &RuleRow) -> u32
    ensures { result ≡ cut_by_rule kind at next rule.now }
{
    match kind {
        ReachKind::Tcp => cut_after(at, cut_at(at, next, rule.low), rule.high),
        ReachKind::Udp => cut_after(at, cut_at(at, next, rule.low), rule.high),
        ReachKind::Echo => next,
        ReachKind::Other => cut_around(at, next, rule.protocol),
    }
}

fn first_cut(kind: ReachKind, at: u32) -> u32
    ensures { result ≡ first_cut kind at }
{
    match kind {
        ReachKind::Tcp => kind.number_end(),
        ReachKind::Udp => kind.number_end(),
        ReachKind::Echo => kind.number_end(),
        ReachKind::Other => {
            let one = cut_around(at, kind.number_end(), Some(1));
            let six = cut_around(at, one, Some(6));
            let seventeen = cut_around(at, six, Some(17));
            cut_around(at, seventeen, Some(58))
        }
    }
}

fn is_of(pair: &Pair, rule: &RuleRow) -> bool
    ensures { result ≡ is_of pair.now.from.now pair.now.to.now rule.now }
{
    pair.from.names_group(rule.group) || pair.to.names_group(rule.group)
}

fn cut_by_rules(pair: &Pair, kind: ReachKind, at: u32, first: u32, rules: &[Shared<RuleRow>]) -> u32
    ensures { result
        ≡ cut_by_rules kind pair.now.from.now pair.now.to.now at first rules.now }
{
    let mut next = first;
    for rule in rules {
        if is_of(pair, rule) {
            next = cut_by_rule(kind, at, next, rule);
        }
    }
    next
}

// The first number after `at` at which a piece begins.
fn next_cut(rows: &Rows, pair: &Pair, kind: ReachKind, at: u32) -> u32
    ensures { result ≡ next_cut rows.now (two_ports pair.now) kind at }
{
    cut_by_rules(pair, kind, at, first_cut(kind, at), rows.rules().rows())
}

/// Where the piece ends in which a number is: the next number that a rule of the two ports may tell
/// from it, or the end of the kind's numbers. Its cost grows with the rules.
pub(crate) fn piece_end(rows: &Rows, pair: &Pair, kind: ReachKind, at: u32) -> u32
    requires { at < number_end kind }
    ensures above { at < result }
    ensures within { result ≤ number_end kind }
    ensures piece { (d : ℕ) → at ≤ d → d < result
        → IsPiece rows.now (two_ports pair.now) kind at d }
{
    next_cut(rows, pair, kind, at)
}
