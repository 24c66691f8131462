//! The key `hosts`.

ghost use Rattle.std.specs.Prelude.{◌≡◌, IfOk, IfErr, Ok, Err, map, option_map};
ghost use Rattle.std.specs.List.{list_all};
ghost use Rattle.toml.specs.View.{view, table_view};
ghost use Rattle.net_settings.specs.Hosts.{name_in, physical_in, flag_in, draft_of, drafts_among, drafts_of, keeps, bad_host_key, host_of, hosts_in};
ghost use Rattle.net_settings.specs.Refusals.{Refuses};

use crate::defaults::default_hosts;
use crate::names::{Named, are_different, are_names, is_name};
use crate::refusal::SettingsRefusal;
use crate::settings::Host;
use crate::texts::{read_texts, value_at, values_of};
use net_addr::{Names, OutOfMemory, Seq, Text};
use std::alloc::Global;
use toml::{Table, Value};

/// A host's table as it was read: at each key its value, or none where it breaks its rule.
#[derive(Drop)]
pub(crate) struct HostDraft {
    pub(crate) name: Option<Text>,
    pub(crate) physical: Option<Names>,
    pub(crate) vxlan: Option<bool>,
    pub(crate) l3: Option<bool>,
    pub(crate) dhcp: Option<bool>,
}

impl Named for HostDraft {
    ghost use Rattle.net_settings.specs.Hosts.{draft_name};

    ghost name_of = { draft_name };

    fn name(&self) -> &str {
        match &self.name {
            Some(name) => name.as_str(),
            None => "",
        }
    }
}

// The name of a host, which is required.
fn read_name(alloc: Global, table: &Table) -> Result<Option<Text>, OutOfMemory>
    ensures { IfOk result (λ r. r ≡ name_in (table_view table.now)) }
{
    let Some(value) = value_at(table, "name") else {
        return Ok(None);
    };
    match value.as_str() {
        Some(name) if is_name(name, 63) => Ok(Some(Text::of(alloc, name)?)),
        _ => Ok(None),
    }
}

// The names of the physical networks of a host.
fn read_physical(alloc: Global, table: &Table) -> Result<Option<Names>, OutOfMemory>
    ensures { IfOk result (λ r. r ≡ physical_in (table_view table.now)) }
{
    let Some(value) = value_at(table, "physical") else {
        return Ok(Some(Names::new(alloc)));
    };
    let Some(names) = read_texts(alloc, value)? else {
        return Ok(None);
    };
    if !are_names(names.as_slice(), 64) || !are_different(alloc, names.as_slice())? {
        return Ok(None);
    }
    Ok(Some(names))
}

fn read_flag(table: &Table, key: &str) -> Option<bool>
    ensures { result ≡ flag_in key.now (table_view table.now) }
{
    match value_at(table, key) {
        None => Some(false),
        Some(value) => value.as_bool(),
    }
}

fn read_draft(alloc: Global, table: &Table) -> Result<HostDraft, OutOfMemory>
    ensures { IfOk result (λ r. r ≡ draft_of (table_view table.now)) }
{
    let name = read_name(alloc, table)?;
    let physical = read_physical(alloc, table)?;
    Ok(HostDraft {
        name,
        physical,
        vxlan: read_flag(table, "vxlan"),
        l3: read_flag(table, "l3"),
        dhcp: read_flag(table, "dhcp"),
    })
}

// The drafts, if all values are tables.
fn drafts_among(alloc: Global, items: &[Value]) -> Result<Option<Seq<HostDraft>>, OutOfMemory>
    ensures { IfOk result (λ r. r ≡ drafts_among (map view items.now)) }
{
    let mut drafts = Seq::new(alloc);
    for item in items {
        let Some(table) = item.as_table() else {
            return Ok(None);
        };
        drafts.push(read_draft(alloc, table)?)?;
    }
    Ok(Some(drafts))
}

// The drafts of a list of 1 to 64 tables.
fn drafts_of(alloc: Global, value: &Value) -> Result<Option<Seq<HostDraft>>, OutOfMemory>
    ensures { IfOk result (λ r. r ≡ drafts_of (view value.now)) }
{
    let Some(items) = values_of(value) else {
        return Ok(None);
    };
    if items.is_empty() || items.len() > 64 {
        return Ok(None);
    }
    drafts_among(alloc, items)
}

/// A key of a host's table.
#[derive(Clone, Copy)]
enum HostKey {
    Name,
    Physical,
    Vxlan,
    L3,
    Dhcp,
}

fn keeps(key: HostKey, draft: &HostDraft) -> bool
    ensures { result ≡ keeps key draft.now }
{
    match key {
        HostKey::Name => draft.name.is_some(),
        HostKey::Physical => draft.physical.is_some(),
        HostKey::Vxlan => draft.vxlan.is_some(),
        HostKey::L3 => draft.l3.is_some(),
        HostKey::Dhcp => draft.dhcp.is_some(),
    }
}

fn all_keep(key: HostKey, drafts: &[HostDraft]) -> bool
    ensures { result ≡ list_all (keeps key) drafts.now }
{
    drafts.iter().all(|draft| keeps(key, draft))
}

// The first key at which a draft breaks its rule.
fn bad_host_key(alloc: Global, drafts: &[HostDraft]) -> Result<Option<&'static str>, OutOfMemory>
    ensures { IfOk result (λ r. option_map (λ s. s.now) r ≡ bad_host_key drafts.now) }
{
    if !all_keep(HostKey::Name, drafts) || !are_different(alloc, drafts)? {
        return Ok(Some("hosts.name"));
    }
    if !all_keep(HostKey::Physical, drafts) {
        return Ok(Some("hosts.physical"));
    }
    if !all_keep(HostKey::Vxlan, drafts) {
        return Ok(Some("hosts.vxlan"));
    }
    if !all_keep(HostKey::L3, drafts) {
        return Ok(Some("hosts.l3"));
    }
    if !all_keep(HostKey::Dhcp, drafts) {
        return Ok(Some("hosts.dhcp"));
    }
    Ok(None)
}

// The host of a draft that keeps all rules.
fn host_of(alloc: Global, draft: HostDraft) -> Host
    ensures { result ≡ host_of draft }
{
    Host {
        name: draft.name.unwrap_or(Text::new(alloc)),
        physical: draft.physical.unwrap_or(Names::new(alloc)),
        vxlan: draft.vxlan.unwrap_or(false),
        l3: draft.l3.unwrap_or(false),
        dhcp: draft.dhcp.unwrap_or(false),
    }
}

fn hosts_of(alloc: Global, drafts: Seq<HostDraft>) -> Result<Seq<Host>, OutOfMemory>
    ensures { IfOk result (λ r. r ≡ map host_of drafts) }
{
    let mut hosts = Seq::new(alloc);
    for draft in drafts.into_vec() {
        hosts.push(host_of(alloc, draft))?;
    }
    Ok(hosts)
}

/// The hosts, in the order of the file, or the first bad key.
pub(crate) fn read_hosts(alloc: Global, table: &Table) -> Result<Seq<Host>, SettingsRefusal>
    ensures ok { IfOk result (λ r. hosts_in (table_view table.now) ≡ Ok r) }
    ensures bad { IfErr result (Refuses (hosts_in (table_view table.now))) }
{
    let Some(value) = value_at(table, "hosts") else {
        return Ok(default_hosts(alloc)?);
    };
    let Some(drafts) = drafts_of(alloc, value)? else {
        return Err(SettingsRefusal::named(alloc, "hosts"));
    };
    if let Some(key) = bad_host_key(alloc, drafts.as_slice())? {
        return Err(SettingsRefusal::named(alloc, key));
    }
    Ok(hosts_of(alloc, drafts)?)
}
