//! The key `quotas`.

ghost use Rattle.std.specs.Prelude.{◌≡◌};
ghost use Rattle.toml.specs.View.{view, table_view};
ghost use Rattle.net_settings.specs.Quotas.{limit_of, limit_at, is_quota, are_quotas, quotas_among, quotas_in};

use crate::defaults::default_quotas;
use crate::settings::{Limit, Quotas};
use crate::texts::value_at;
use toml::{Table, Value};

// -1 is no limit.
fn limit_of(value: &Value) -> Option<Limit>
    ensures { result ≡ limit_of (view value.now) }
{
    match value.as_integer() {
        Some(-1) => Some(Limit::Unlimited),
        Some(n) if n >= 0 && n <= 2147483647 => Some(Limit::AtMost(n as u32)),
        _ => None,
    }
}

// The limit at a key, or the default.
fn limit_at(table: &Table, key: &str, default: Limit) -> Limit
    ensures { result ≡ limit_at key.now default (table_view table.now) }
{
    match value_at(table, key) {
        None => default,
        Some(value) => limit_of(value).unwrap_or(default),
    }
}

fn is_quota(key: &str) -> bool
    ensures { result ≡ is_quota key.now }
{
    key == "network"
        || key == "subnet"
        || key == "port"
        || key == "router"
        || key == "floatingip"
        || key == "security_group"
        || key == "security_group_rule"
        || key == "rbac_policy"
}

// Whether each member of a table is a limit at a kind's key.
fn are_quotas(table: &Table) -> bool
    ensures { result ≡ are_quotas (table_view table.now) }
{
    for (key, value) in table {
        if !is_quota(key.as_str()) || limit_of(value).is_none() {
            return false;
        }
    }
    true
}

// The limits of a table, which has the defaults where it is silent.
fn quotas_among(table: &Table) -> Quotas
    ensures { result ≡ quotas_among (table_view table.now) }
{
    let default = default_quotas();
    Quotas {
        network: limit_at(table, "network", default.network),
        subnet: limit_at(table, "subnet", default.subnet),
        port: limit_at(table, "port", default.port),
        router: limit_at(table, "router", default.router),
        floatingip: limit_at(table, "floatingip", default.floatingip),
        security_group: limit_at(table, "security_group", default.security_group),
        security_group_rule: limit_at(table, "security_group_rule", default.security_group_rule),
        rbac_policy: limit_at(table, "rbac_policy", default.rbac_policy),
    }
}

/// `quotas`, if it keeps its rule.
pub(crate) fn read_quotas(table: &Table) -> Option<Quotas>
    ensures { result ≡ quotas_in (table_view table.now) }
{
    let Some(value) = value_at(table, "quotas") else {
        return Some(default_quotas());
    };
    match value.as_table() {
        Some(limits) if are_quotas(limits) => Some(quotas_among(limits)),
        _ => None,
    }
}
