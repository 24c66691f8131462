//! The numbers of which a table speaks.

ghost use Rattle.std.specs.Prelude.{◌≡◌};
ghost use Rattle.toml.specs.View.{table_view};
ghost use Rattle.wanted_files.specs.Ranges.{kind_in, is_range, proto_in, range_in};

use crate::values::{number_at, text_at};
use reach_laws::ReachKind;
use toml::Table;

/// Numbers of a kind, from the least to the greatest.
#[derive(Clone, Copy, Debug)]
pub(crate) struct Range {
    pub(crate) proto: ReachKind,
    pub(crate) low: u32,
    pub(crate) high: u32,
}

fn kind_in(word: &str) -> Option<ReachKind>
    ensures { result ≡ kind_in word.now }
{
    match word {
        "tcp" => Some(ReachKind::Tcp),
        "udp" => Some(ReachKind::Udp),
        "echo" => Some(ReachKind::Echo),
        "other" => Some(ReachKind::Other),
        _ => None,
    }
}

fn read_proto(table: &Table) -> Option<ReachKind>
    ensures { result ≡ proto_in (table_view table.now) }
{
    kind_in(text_at(table, "proto")?)
}

fn is_range(range: Range) -> bool
    ensures { result ≡ is_range range }
{
    range.low <= range.high && range.high < range.proto.number_end()
}

/// The range of a table, if it keeps its rule.
pub(crate) fn read_range(table: &Table) -> Option<Range>
    ensures { result ≡ range_in (table_view table.now) }
{
    let proto = read_proto(table)?;
    let low = number_at(table, "low")?;
    let high = number_at(table, "high")?;
    let range = Range { proto, low, high };
    if is_range(range) { Some(range) } else { None }
}
