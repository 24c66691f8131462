//! The settings that a TOML document gives, or its first bad key. Begin here.

ghost use Rattle.std.specs.Prelude.{◌≡◌, IfOk, IfErr, Ok, Err};
ghost use Rattle.toml.specs.View.{table_view};
ghost use Rattle.net_settings.specs.Refusals.{Refuses};
ghost use Rattle.net_settings.specs.Document.{document_of, at_key, settings_in, settings_of};

use crate::drivers::read_drivers;
use crate::hosts::read_hosts;
use crate::numbers::{read_vxlan_first, read_vxlan_last};
use crate::quotas::read_quotas;
use crate::refusal::SettingsRefusal;
use crate::settings::Settings;
use crate::unknown::first_unknown;
use net_addr::Text;
use std::alloc::Global;
use toml::Table;

// The document of the bytes.
fn read_document(alloc: Global, bytes: &[u8]) -> Result<Table, SettingsRefusal>
    ensures ok { IfOk result (λ t. document_of bytes.now ≡ Ok (table_view t)) }
    ensures bad { IfErr result (Refuses (document_of bytes.now)) }
{
    match toml::table_from_slice(alloc, bytes) {
        Ok(table) => Ok(table),
        Err(e) => {
            if e.is_memory() {
                return Err(SettingsRefusal::OutOfMemory);
            }
            let key = Text::new(alloc);
            Err(SettingsRefusal::BadSettings { key })
        }
    }
}

// The value, or the refusal of its key.
fn at_key<T: Drop>(alloc: Global, key: &str, value: Option<T>) -> Result<T, SettingsRefusal>
    ensures ok { IfOk result (λ v. at_key key.now value ≡ Ok v) }
    ensures bad { IfErr result (Refuses (at_key key.now value)) }
{
    match value {
        Some(value) => Ok(value),
        None => Err(SettingsRefusal::named(alloc, key)),
    }
}

fn read_members(alloc: Global, table: &Table) -> Result<Settings, SettingsRefusal>
    ensures ok { IfOk result (λ s. settings_in (table_view table.now) ≡ Ok s) }
    ensures bad { IfErr result (Refuses (settings_in (table_view table.now))) }
{
    let drivers = at_key(alloc, "drivers", read_drivers(alloc, table)?)?;
    let vxlan_first = at_key(alloc, "vxlan_first", read_vxlan_first(table))?;
    let vxlan_last = at_key(alloc, "vxlan_last", read_vxlan_last(table))?;
    let quotas = at_key(alloc, "quotas", read_quotas(table))?;
    let hosts = read_hosts(alloc, table)?;
    if let Some(key) = first_unknown(alloc, table)? {
        return Err(SettingsRefusal::BadSettings { key });
    }
    Ok(Settings::of(drivers, vxlan_first, vxlan_last, quotas, hosts))
}

/// The settings that a TOML document gives (https://toml.io/en/v1.1.0). What it doesn't say has its
/// default. The refusal names the first key that breaks its rule, in the order `drivers`,
/// `vxlan_first`, `vxlan_last`, `quotas`, `hosts`, `hosts.name`, `hosts.physical`, `hosts.vxlan`,
/// `hosts.l3`, `hosts.dhcp`, and then the first unknown key in byte order. It names the empty key
/// where the bytes are no TOML in UTF-8. Beyond reading the TOML, the cost grows as n log n with
/// the number of names.
pub fn read_settings(alloc: Global, text: &[u8]) -> Result<Settings, SettingsRefusal>
    ensures ok { IfOk result (λ s. settings_of text.now ≡ Ok s) }
    ensures bad { IfErr result (Refuses (settings_of text.now)) }
{
    let table = read_document(alloc, text)?;
    read_members(alloc, &table)
}
