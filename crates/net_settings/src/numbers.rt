//! The keys `vxlan_first` and `vxlan_last`.

ghost use Rattle.std.specs.Prelude.{◌≡◌};
ghost use Rattle.toml.specs.View.{view, table_view};
ghost use Rattle.net_settings.specs.Numbers.{vxlan_number, vxlan_first_in, vxlan_last_in};

use crate::texts::value_at;
use toml::{Table, Value};

// A number of a vxlan network (RFC 7348), which has 24 bits; 0 is none.
fn vxlan_number(value: &Value) -> Option<u32>
    ensures { result ≡ vxlan_number (view value.now) }
{
    match value.as_integer() {
        Some(n) if n >= 1 && n <= 16777215 => u32::try_from(n).ok(),
        _ => None,
    }
}

/// `vxlan_last`, if it keeps its rule.
pub(crate) fn read_vxlan_last(table: &Table) -> Option<u32>
    ensures { result ≡ vxlan_last_in (table_view table.now) }
{
    match value_at(table, "vxlan_last") {
        None => Some(1000),
        Some(value) => vxlan_number(value),
    }
}

/// `vxlan_first`, if it keeps its rule. One above `vxlan_last` breaks it.
pub(crate) fn read_vxlan_first(table: &Table) -> Option<u32>
    ensures { result ≡ vxlan_first_in (table_view table.now) }
{
    let first = match value_at(table, "vxlan_first") {
        None => 1,
        Some(value) => vxlan_number(value)?,
    };
    match read_vxlan_last(table) {
        Some(last) if last < first => None,
        _ => Some(first),
    }
}
